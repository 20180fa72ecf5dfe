// The laws of formulas that are numbered as they are made.

ghost use Rattle.std.specs.{Prelude.{◌≡◌, ◌==◌, ◌++◌, ℕ, List, [], length, map}, List.{filter}};
ghost use Rattle.spec_core.specs.Specification.{Specification};
ghost use Rattle.obligation_list.specs.declared.obligation.Obligation.{Obligation};
ghost use Rattle.ground_problem.specs.{Symbols.{Symbolic}, Definitions.{readings_after}};
ghost use Rattle.ground_numbers.specs.{Numbered.{Numbered}, Numbers.{numbered, naming_all}};
ghost use Rattle.ground_numbers.specs.Problem.{arguments_of};
ghost use Rattle.ground_atoms.specs.{Known.{Known}, Making.{make_all}};

/// Formulas that are numbered as they are made have the numbers of the final table, and the readings that were named are those that
/// the formulas name, each where it is first named.
pub fn law_making_is_numbering()
    ensures table { (done : List Numbered) (k : Known) (fs : List Symbolic)
        → (make_all done k fs).known.table ≡ naming_all k.table fs }
    ensures forms { (done : List Numbered) (k : Known) (fs : List Symbolic)
        → (make_all done k fs).forms ≡ done ++ map (numbered (naming_all k.table fs)) fs }
    ensures readings { (d : Specification) (ob : Obligation) (done : List Numbered) (n : ℕ)
        (list : List Symbolic)
        → readings_after n list
        ≡ filter (λ q. length q.stage == n)
        (make_all done (record { table = record { atoms = []; ints = arguments_of d ob }; named = [] }) list).known.named }
{}
