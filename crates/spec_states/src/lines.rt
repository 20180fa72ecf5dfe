// The lines by which reports and replays show a state.

ghost use Rattle.std.specs.Prelude.{◌≡◌, ℕ, ℤ, ◌∷◌, ◌++◌, OnOk, map};
ghost use Rattle.std.specs.{Fmt.{decimal, signed_decimal}, List.{flat_map}};
ghost use Rattle.spec_states.specs.StateText.{spaced, true_line, count_line};

use std::alloc::{AllocError, Global};
use std::collections::{BTreeMap, BTreeSet};

fn write_spaced(alloc: Global, elements: &[u32], out: &mut Vec<u8>) -> Result<(), AllocError>
    ensures { OnOk result (out.new.items ≡ out.old.items ++ spaced elements.now) }
{
    for element in elements {
        out.push(b' ')?;
        let text = element.to_string(alloc)?;
        out.extend_from_slice(text.as_bytes())?;
    }
    Ok(())
}

fn write_true(
    alloc: Global,
    name: &[u8],
    tuple: &[u32],
    out: &mut Vec<u8>,
) -> Result<(), AllocError>
    ensures { OnOk result (out.new.items ≡ out.old.items ++ true_line name.now tuple.now) }
{
    out.extend_from_slice(b"true ")?;
    out.extend_from_slice(name)?;
    write_spaced(alloc, tuple, out)?;
    out.push(b'\n')?;
    Ok(())
}

fn write_value(
    alloc: Global,
    name: &[u8],
    key: &[u32],
    value: i64,
    out: &mut Vec<u8>,
) -> Result<(), AllocError>
    ensures { OnOk result (out.new.items ≡ out.old.items ++ count_line name.now (key.now, value)) }
{
    if value == 0 {
        return Ok(());
    }
    out.extend_from_slice(b"count ")?;
    out.extend_from_slice(name)?;
    write_spaced(alloc, key, out)?;
    out.push(b' ')?;
    let text = value.to_string(alloc)?;
    out.extend_from_slice(text.as_bytes())?;
    out.push(b'\n')?;
    Ok(())
}

/// Appends a line for each tuple.
pub fn write_tuples(
    alloc: Global,
    name: &[u8],
    tuples: &BTreeSet<Vec<u32>>,
    out: &mut Vec<u8>,
) -> Result<(), AllocError>
    ensures { OnOk result (out.new.items ≡ out.old.items
        ++ flat_map (true_line name.now) (map (λ k. k.items) tuples.now.keys)) }
{
    for tuple in tuples {
        write_true(alloc, name, tuple.as_slice(), out)?;
    }
    Ok(())
}

/// Appends a line for each key whose value isn't 0.
pub fn write_values(
    alloc: Global,
    name: &[u8],
    entries: &BTreeMap<Vec<u32>, i64>,
    out: &mut Vec<u8>,
) -> Result<(), AllocError>
    ensures { OnOk result (out.new.items ≡ out.old.items
        ++ flat_map (count_line name.now) (map (λ e. (e.0.items, e.1)) entries.now.entries)) }
{
    for (key, value) in entries {
        write_value(alloc, name, key.as_slice(), *value, out)?;
    }
    Ok(())
}
