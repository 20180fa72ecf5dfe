// The laws of numbers and clauses.

ghost use Rattle.std.specs.Prelude.{◌≡◌, ◌^◌, ◌==◌, ℕ, suc, nat_lt, ℤ, pos, Bool, true, Some, List, [], ◌∷◌, ◌++◌, map, length};
ghost use Rattle.std.specs.{List.{fold, list_all}, Str.{bytes_eq}};
ghost use Rattle.spec_core.specs.{declared.world.World.{World}, declared.world.Call.{Call}};
ghost use Rattle.spec_core.specs.{Specification.{Specification}, State.{Listing}};
ghost use Rattle.spec_core.specs.Typed.{is_specification};
ghost use Rattle.obligation_list.specs.declared.obligation.Obligation.{Obligation};
ghost use Rattle.obligation_list.specs.{Breaking.{Breaks, Holds}, Obligations.{IsObligation}};
ghost use Rattle.lin_rows.specs.{declared.term.RowTerm.{RowTerm}, Rows.{Row}, Sums.{row_of}};
ghost use Rattle.proof_lines.specs.Problems.{fits, Meaning, atom_true, makes_true, HasNoInterpretation};
ghost use Rattle.ground_problem.specs.Symbols.{Integer, Symbolic, all_true};
ghost use Rattle.ground_problem.specs.{Problem.{formulas_of}, Readback.{ReadFrom}};
ghost use Rattle.ground_numbers.specs.Stages.{stage_of, stage_before, latest_call};
ghost use Rattle.ground_numbers.specs.Numbered.{Numbered, all_hold, is_below};
ghost use Rattle.ground_numbers.specs.Numbers.{Table, with_integer, added_up, numbered, naming_all};
ghost use Rattle.ground_numbers.specs.{Sizes.{size_of_terms, rows_small}, Steps.{steps_after}};
ghost use Rattle.ground_numbers.specs.Problem.{arguments_of, table_of, numbered_of, kind_of, rows_placed, problem, problem_of, interpretation_of};

/// What breaks an obligation of a well-formed specification gives a meaning that makes all clauses of its problem true.
pub fn law_broken_has_meaning()
    ensures { (d : Specification) (ob : Obligation) (w : World) (s : Listing) (cs : List Call)
        (es : List ℕ)
        → is_specification d ≡ true → Breaks d ob w s cs es
        → (m : Meaning) × (makes_true m (problem_of d ob) ≡ true) }
{}

/// An obligation whose problem has no interpretation holds.
pub fn law_refuted_problem_holds()
    ensures { (d : Specification) (ob : Obligation) → is_specification d ≡ true
        → HasNoInterpretation (problem_of d ob) → Holds d ob }
{}

/// A meaning that makes all clauses of an obligation's problem true makes its formulas true, over the numbers of its atoms.
pub fn law_clauses_make_formulas_true()
    ensures { (d : Specification) (ob : Obligation) (m : Meaning)
        → makes_true m (problem_of d ob) ≡ true
        → all_hold (atom_true m (map kind_of (table_of d ob).atoms)) (numbered_of d ob) ≡ true }
{}

/// A meaning that makes the formulas of an obligation true over the numbers of its atoms gives an interpretation that makes them true
/// over what the numbers stand for.
pub fn law_numbers_are_names()
    ensures { (d : Specification) (ob : Obligation) (m : Meaning)
        → all_hold (atom_true m (map kind_of (table_of d ob).atoms)) (numbered_of d ob)
        ≡ all_true (interpretation_of (table_of d ob) m) (formulas_of d ob) }
{}

/// A meaning that makes the formulas of an obligation true over the numbers of its atoms gives values that break it. They are read
/// from the meaning: what has no number is false or 0.
pub fn law_meaning_breaks()
    ensures { (d : Specification) (ob : Obligation) (m : Meaning) → is_specification d ≡ true
        → IsObligation d ob
        → all_hold (atom_true m (map kind_of (table_of d ob).atoms)) (numbered_of d ob) ≡ true
        → (w : World) × (s : Listing) × (cs : List Call) × (es : List ℕ) × Breaks d ob w s cs es
        × ReadFrom d ob (interpretation_of (table_of d ob) m) w s cs }
{}

/// Formulas that are numbered as they come have the numbers of the final table: a number stays as the table grows.
pub fn law_steps_are_numbers()
    ensures { (done : List Numbered) (o : Table) (fs : List Symbolic)
        → steps_after done o fs
        ≡ record { table = naming_all o fs; forms = done ++ map (numbered (naming_all o fs)) fs } }
{}

/// The numbers of stages are one to one, and a stage after the entry is the one before it with its latest call.
pub fn law_stage_numbers()
    ensures same { (m n : ℕ) → bytes_eq (stage_of m) (stage_of n) ≡ (m == n) }
    ensures made { (n : ℕ) → stage_of (suc n)
        ≡ latest_call (suc n) ∷ stage_of (stage_before (suc n)) }
{}

/// A row of terms holds the terms added up. It is never out of range where the sizes of their coefficients are together in the range
/// of a row.
pub fn law_row_of_terms()
    ensures terms { (ts : List RowTerm) (bound : ℤ) (row : Row) → row_of ts bound ≡ Some row
        → row ≡ record { terms = added_up ts; bound = bound } }
    ensures in_range { (ts : List RowTerm) (bound : ℤ) → nat_lt (size_of_terms ts) (2 ^ 127) ≡ true
        → row_of ts bound ≡ Some (record { terms = added_up ts; bound = bound }) }
{}

/// The whole numbers among the arguments of an obligation's calls have the first numbers of integers, where they are numbered one by
/// one.
pub fn law_arguments_are_first()
    ensures { (d : Specification) (ob : Obligation)
        → fold with_integer (record { atoms = []; ints = [] }) (arguments_of d ob)
        ≡ record { atoms = []; ints = arguments_of d ob } }
{}

/// What 0 and every whole number of a meaning passes, the numbers that are read from it pass.
pub fn law_integers_are_of_meaning()
    ensures { (o : Table) (m : Meaning) (test : ℤ → Bool) → test (pos 0) ≡ true
        → ((n : ℕ) → test (m.number n) ≡ true) → (x : Integer)
        → test ((interpretation_of o m).int x) ≡ true }
{}

/// The problem of formulas is one that the type of problems keeps, where the formulas name atoms of the table, and the places of its
/// rows are numbers of its integers.
pub fn law_problem_fits()
    ensures { (o : Table) (fs : List Numbered) → rows_placed o ≡ true
        → list_all (is_below (length o.atoms)) fs ≡ true → fits (problem o fs) ≡ true }
{}

/// Both hold of an obligation's table and formulas, and no coefficient and no bound of a row is beyond 10^20.
pub fn law_obligation_fits()
    ensures rows { (d : Specification) (ob : Obligation) → rows_placed (table_of d ob) ≡ true }
    ensures formulas { (d : Specification) (ob : Obligation)
        → list_all (is_below (length (table_of d ob).atoms)) (numbered_of d ob) ≡ true }
    ensures problem { (d : Specification) (ob : Obligation) → fits (problem_of d ob) ≡ true }
    ensures numbers { (d : Specification) (ob : Obligation) → is_specification d ≡ true
        → rows_small (table_of d ob) ≡ true }
{}
