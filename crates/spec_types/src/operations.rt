// Invariants and operations.

ghost use Rattle.std.specs.Prelude.{◌≡◌, map, OnOk, IfOk};
ghost use Rattle.spec_trees.specs.Form.{sentence_of, line_of, invariant_form, operation_form};
ghost use Rattle.typing_rules.specs.Scope.{kind_of as kind_of_tree, param_of as param_of_tree};
ghost use Rattle.typing_rules.specs.Scope.{params_of as params_of_tree};
ghost use Rattle.typing_rules.specs.Lines.{unless, typed_lines};
ghost use Rattle.typing_rules.specs.Items.{exists_fault as exists_fault_of};
ghost use Rattle.typing_rules.specs.Items.{claim_fault as claim_fault_of, with_invariant};
ghost use Rattle.typing_rules.specs.Items.{typed_invariant, scope_in as scope_in_known};
ghost use Rattle.typing_rules.specs.Items.{with_params as with_params_of};
ghost use Rattle.typing_rules.specs.Items.{param_kind_fault as param_kind_fault_of};
ghost use Rattle.typing_rules.specs.Items.{param_fault as param_fault_of};
ghost use Rattle.typing_rules.specs.Items.{params_fault as params_fault_of};
ghost use Rattle.typing_rules.specs.Items.{without_lines as without_lines_of, typed_operation};
ghost use Rattle.typing_rules.specs.Items.{typed_item};
ghost use Rattle.spec_types.specs.{faults.Names.{meaning_in}, Refusals.{Gives, Makes}};
ghost use Rattle.spec_types.specs.{faults.Views.{faulted, scope_of}, Views.{known_of}};

use crate::elaborating::{add_line, sentence_of};
use crate::faults::{
    Fault, Names, Scope, declared_fault, limit_at, line_fault, sentence_fault, sort_fault,
    sort_number,
};
use crate::known::{Known, heading_fault, scope_in};
use crate::refusal::Stop;
use items::{Items, or_drop};
use spec_core::limits::{MOST_INVARIANTS, MOST_OPERATIONS, MOST_PARAMETERS};
use spec_core::{Invariant, Kind, Name, Operation};
use spec_trees as tree;
use spec_trees::{Line, Mark, Param, ParamKind, Prefix, Prefixed, Quantifier};
use std::alloc::{AllocError, Global};
use typing_rules::{Meaning, Which};

// ---- invariants

/// An invariant's prefix is `forall` or missing.
fn exists_fault<'t>(prefix: &Option<Prefix>) -> Option<Fault<'t>>
    ensures { faulted result ≡ exists_fault_of prefix.now }
{
    match prefix {
        Some(found) => match found.quantifier {
            Quantifier::Forall => None,
            Quantifier::Exists => Some(Fault::Exists(found.word)),
        },
        None => None,
    }
}

fn claim_fault<'t>(known: &Known, sentence: &'t Prefixed) -> Option<Fault<'t>>
    ensures { faulted result ≡ claim_fault_of (known_of known.now) (sentence_of sentence.now) }
{
    if let Some(fault) = exists_fault(&sentence.prefix) {
        return Some(fault);
    }
    sentence_fault(&scope_in(known), sentence)
}

fn add_invariant(
    alloc: Global,
    known: &mut Known,
    mark: &Mark,
    sentence: &Prefixed,
) -> Result<(), AllocError>
    ensures { OnOk result (known_of known.new
        ≡ with_invariant (known_of known.old) mark.now (sentence_of sentence.now)) }
{
    let name = Name::new(alloc, mark.text.bytes())?;
    let line = or_drop!(sentence_of(alloc, &scope_in(known), sentence); name);
    known.draft.invariants.push(Invariant { name, line })
}

fn type_claim<'t>(
    alloc: Global,
    known: &mut Known,
    mark: &'t Mark,
    sentence: &'t Prefixed,
) -> Result<(), Stop<'t>>
    ensures { Makes (typed_invariant (known_of known.old) mark.now (sentence_of sentence.now))
        (known_of known.new) result }
{
    if let Some(fault) = claim_fault(known, sentence) {
        return Err(Stop::Fault(fault));
    }
    add_invariant(alloc, known, mark, sentence)?;
    Ok(())
}

/// Adds an invariant, or answers the first fault of its line.
pub fn type_invariant<'t>(
    alloc: Global,
    known: &mut Known,
    word: u32,
    mark: &'t Mark,
    sentence: &'t Prefixed,
) -> Result<(), Stop<'t>>
    ensures { Makes
        (typed_item (known_of known.old) (invariant_form word mark.now (sentence_of sentence.now)))
        (known_of known.new) result }
{
    let count = known.draft.invariants.len();
    if let Some(fault) = heading_fault(known, Which::Invariants, MOST_INVARIANTS, count, mark) {
        return Err(Stop::Fault(fault));
    }
    known.names.add(mark.text.bytes(), Meaning::Invariant)?;
    type_claim(alloc, known, mark, sentence)
}

// ---- parameters

fn with_params<'d, 't>(scope: &Scope<'d, 't>, params: &'t [Param]) -> Scope<'d, 't>
    ensures { scope_of result ≡ with_params_of (scope_of scope.now) params.now }
{
    Scope {
        draft: scope.draft,
        names: scope.names,
        params,
        vars: scope.vars,
    }
}

fn param_kind_fault<'t>(scope: &Scope<'_, '_>, own: &[u8], kind: &'t ParamKind) -> Option<Fault<'t>>
    ensures { faulted result ≡ param_kind_fault_of (scope_of scope.now) own.now kind.now }
{
    match kind {
        ParamKind::Sort(mark) => sort_fault(scope, own, mark),
        ParamKind::Int => None,
    }
}

/// A parameter, where those before it are in scope.
fn param_fault<'t>(scope: &Scope<'_, '_>, place: usize, param: &'t Param) -> Option<Fault<'t>>
    ensures { faulted result ≡ param_fault_of (scope_of scope.now) place param.now }
{
    if let Some(fault) = declared_fault(scope, &param.name) {
        return Some(fault);
    }
    if let Some(fault) = limit_at(Which::Parameters, MOST_PARAMETERS, place, param.name.word) {
        return Some(fault);
    }
    param_kind_fault(scope, param.name.text.bytes(), &param.kind)
}

fn params_fault<'t>(scope: &Scope<'_, 't>, params: &'t [Param]) -> Option<Fault<'t>>
    ensures { faulted result ≡ params_fault_of (scope_of scope.now) params.now }
{
    for (place, param) in params.iter().enumerate() {
        let before = with_params(scope, &params[..place]);
        if let Some(fault) = param_fault(&before, place, param) {
            return Some(fault);
        }
    }
    None
}

fn kind_of(names: &Names, kind: &ParamKind) -> Kind
    ensures { result ≡ kind_of_tree (meaning_in names.now) kind.now }
{
    match kind {
        ParamKind::Sort(mark) => Kind::Sort(sort_number(names, mark)),
        ParamKind::Int => Kind::Int,
    }
}

fn param_of(alloc: Global, names: &Names, param: &Param) -> Result<spec_core::Param, AllocError>
    ensures { IfOk result (λ made. made ≡ param_of_tree (meaning_in names.now) param.now) }
{
    Ok(spec_core::Param {
        name: Name::new(alloc, param.name.text.bytes())?,
        kind: kind_of(names, &param.kind),
    })
}

fn params_of(
    alloc: Global,
    names: &Names,
    params: &[Param],
) -> Result<Items<spec_core::Param>, AllocError>
    ensures { IfOk result (λ made. made ≡ params_of_tree (meaning_in names.now) params.now) }
{
    let mut made = Items::new(alloc);
    for param in params {
        let one = or_drop!(param_of(alloc, names, param); made);
        or_drop!(made.push(one); made);
    }
    Ok(made)
}

// ---- operations

fn without_lines(
    alloc: Global,
    known: &Known,
    mark: &Mark,
    params: &[Param],
) -> Result<Operation, AllocError>
    ensures { IfOk result (λ made. made ≡ without_lines_of
        (known_of known.now) mark.now params.now) }
{
    let name = Name::new(alloc, mark.text.bytes())?;
    let params = or_drop!(params_of(alloc, &known.names, params); name);
    Ok(Operation {
        name,
        params,
        requires_: Items::new(alloc),
        updates: Items::new(alloc),
        takes: Items::new(alloc),
        observes: Items::new(alloc),
    })
}

fn type_lines<'t>(
    alloc: Global,
    scope: &Scope<'_, 't>,
    operation: &mut Operation,
    lines: &'t [Line],
) -> Result<(), Stop<'t>>
    ensures { Makes (typed_lines (scope_of scope.now) operation.old
        (map line_of lines.now)) operation.new result }
{
    for line in lines {
        if let Some(fault) = line_fault(scope, operation, line) {
            return Err(Stop::Fault(fault));
        }
        add_line(alloc, scope, operation, line)?;
    }
    Ok(())
}

fn operation_of<'t>(
    alloc: Global,
    known: &Known,
    mark: &'t Mark,
    params: &'t [Param],
    lines: &'t [Line],
) -> Result<Operation, Stop<'t>>
    ensures { Gives
        (typed_lines (with_params_of (scope_in_known (known_of known.now)) params.now)
        (without_lines_of (known_of known.now) mark.now params.now) (map line_of lines.now))
        result }
{
    let mut operation = without_lines(alloc, known, mark, params)?;
    let scope = with_params(&scope_in(known), params);
    or_drop!(type_lines(alloc, &scope, &mut operation, lines); operation);
    Ok(operation)
}

fn type_body<'t>(
    alloc: Global,
    known: &mut Known,
    mark: &'t Mark,
    params: &'t [Param],
    lines: &'t [Line],
) -> Result<(), Stop<'t>>
    ensures { Makes
        (typed_operation (known_of known.old) mark.now params.now (map line_of lines.now))
        (known_of known.new) result }
{
    if let Some(fault) = params_fault(&scope_in(known), params) {
        return Err(Stop::Fault(fault));
    }
    let operation = operation_of(alloc, known, mark, params, lines)?;
    known.draft.operations.push(operation)?;
    Ok(())
}

/// Adds an operation with its parameters and lines, or answers its first fault.
pub fn type_operation<'t>(
    alloc: Global,
    known: &mut Known,
    word: u32,
    mark: &'t Mark,
    params: &'t [Param],
    lines: &'t [Line],
) -> Result<(), Stop<'t>>
    ensures { Makes
        (typed_item (known_of known.old)
        (operation_form word mark.now params.now (map line_of lines.now)))
        (known_of known.new) result }
{
    let count = known.draft.operations.len();
    if let Some(fault) = heading_fault(known, Which::Operations, MOST_OPERATIONS, count, mark) {
        return Err(Stop::Fault(fault));
    }
    known.names.add(mark.text.bytes(), Meaning::Operation)?;
    type_body(alloc, known, mark, params, lines)
}
