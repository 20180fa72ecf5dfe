// What follows from the definitions: each line is read exactly as it is written.

ghost use Rattle.std.specs.Prelude.{◌≡◌, ◌∷◌, [], ℕ, ℤ, List, Bool, true, get_or, codes};
ghost use Rattle.spec_core.specs.declared.world.World.{World};
ghost use Rattle.spec_core.specs.Specification.{Specification, relation_places, counter_keys};
ghost use Rattle.spec_core.specs.{Fits.{fits_places}, Typed.{is_specification}};
ghost use Rattle.spec_states.specs.StateText.{true_line, count_line};
ghost use Rattle.obligation_list.specs.declared.obligation.Obligation.{Obligation};
ghost use Rattle.obligation_list.specs.Obligations.{IsObligation};
ghost use Rattle.report_lines.specs.{declared.witness.Due.{Due}, Words.{is_part, line_text}};
ghost use Rattle.report_lines.specs.Formats.{IsLine};
ghost use Rattle.report_lines.specs.Heads.{title_format, budget_format, obligations_format};
ghost use Rattle.report_lines.specs.Heads.{summary_format, outcome_format};
ghost use Rattle.report_lines.specs.{Blocks.{obligation_format, verdict_format}, Logs.{log_format}};
ghost use Rattle.report_lines.specs.Evidence.{rows_format, range_format};
ghost use Rattle.report_lines.specs.Witnesses.{relation_names, counter_names, is_other};
ghost use Rattle.report_lines.specs.Witnesses.{size_format, const_format, fact_format};
ghost use Rattle.report_lines.specs.Witnesses.{reading_format, shown_format};

/// The lines that stand once.
pub fn law_heads()
    ensures title { IsLine title_format }
    ensures budget { IsLine budget_format }
    ensures obligations { IsLine obligations_format }
    ensures summary { IsLine summary_format }
    ensures outcome { IsLine outcome_format }
{}

/// The first two lines of a block.
pub fn law_blocks()
    ensures obligation { (d : Specification) (ob : Obligation) → is_specification d ≡ true
        → IsObligation d ob → IsLine (obligation_format d ob) }
    ensures verdict { IsLine verdict_format }
{}

/// The lines of a log, and of evidence.
pub fn law_logs()
    ensures log { (drops : Bool) → IsLine (log_format drops) }
    ensures rows { IsLine rows_format }
    ensures range { IsLine range_format }
{}

/// The lines of a witness.
pub fn law_witnesses()
    ensures size { (sort : List ℕ) → is_part sort ≡ true → IsLine (size_format sort) }
    ensures constant { (name : List ℕ) (size : ℕ) → is_part name ≡ true
        → IsLine (const_format name size) }
    ensures shown { (d : Specification) (w : World) (due : Due) → is_specification d ≡ true
        → IsLine (shown_format d w due) }
{}

/// The lines by which a state is shown are those of the tuples that hold and of the values that aren't 0.
pub fn law_states()
    ensures fact { (d : Specification) (w : World) (from k : ℕ) (t : List ℕ)
        → fits_places w (relation_places d k) t ≡ true
        → true_line (get_or (relation_names d) k []) t ≡ line_text (codes "true" ∷ (fact_format d w from).put (record { relation = k; tuple = t })) }
    ensures reading { (d : Specification) (w : World) (from k : ℕ) (t : List ℕ) (v : ℤ)
        → fits_places w (counter_keys d k) t ≡ true → is_other v ≡ true
        → count_line (get_or (counter_names d) k []) (t, v) ≡ line_text (codes "count" ∷ (reading_format d w from).put (record { counter = k; key = t; value = v })) }
{}
