// What is wrong with variables and with formulas that have some.

ghost use Rattle.std.specs.Prelude.{◌≡◌};
ghost use Rattle.spec_trees.specs.Form.{sentence_of};
ghost use Rattle.typing_rules.specs.Formulas.{with_vars as with_vars_of};
ghost use Rattle.typing_rules.specs.Formulas.{variable_fault as variable_fault_of};
ghost use Rattle.typing_rules.specs.Formulas.{variables_fault as variables_fault_of};
ghost use Rattle.typing_rules.specs.Formulas.{vars_of as vars_of_prefix};
ghost use Rattle.typing_rules.specs.Formulas.{sentence_fault as sentence_fault_of};
ghost use Rattle.spec_types.specs.faults.Views.{faulted, scope_of};

use crate::faults::fault::{Fault, limit_at};
use crate::faults::formulas::formula_fault;
use crate::faults::scope::{Scope, declared_fault, sort_fault};
use spec_core::limits::MOST_VARIABLES;
use spec_trees::{Prefix, Prefixed, Variable};
use typing_rules::Which;

/// The scope with these variables.
pub fn with_vars<'d, 't>(scope: &Scope<'d, 't>, vars: &'t [Variable]) -> Scope<'d, 't>
    ensures { scope_of result ≡ with_vars_of (scope_of scope.now) vars.now }
{
    Scope {
        draft: scope.draft,
        names: scope.names,
        params: scope.params,
        vars,
    }
}

/// A variable, where those before it are in scope.
fn variable_fault<'t>(
    scope: &Scope<'_, '_>,
    place: usize,
    variable: &'t Variable,
) -> Option<Fault<'t>>
    ensures { faulted result ≡ variable_fault_of (scope_of scope.now) place variable.now }
{
    if let Some(fault) = declared_fault(scope, &variable.name) {
        return Some(fault);
    }
    if let Some(fault) = limit_at(Which::Variables, MOST_VARIABLES, place, variable.name.word) {
        return Some(fault);
    }
    sort_fault(scope, variable.name.text.bytes(), &variable.sort)
}

/// The variables of a prefix.
fn variables_fault<'t>(scope: &Scope<'_, 't>, vars: &'t [Variable]) -> Option<Fault<'t>>
    ensures { faulted result ≡ variables_fault_of (scope_of scope.now) vars.now }
{
    for (place, variable) in vars.iter().enumerate() {
        let before = with_vars(scope, &vars[..place]);
        if let Some(fault) = variable_fault(&before, place, variable) {
            return Some(fault);
        }
    }
    None
}

/// The variables of a prefix; none where it is missing.
pub fn vars_of(prefix: &Option<Prefix>) -> &[Variable]
    ensures { result.now ≡ vars_of_prefix prefix.now }
{
    match prefix {
        Some(prefix) => prefix.vars.as_slice(),
        None => &[],
    }
}

/// A formula with its variables.
pub fn sentence_fault<'t>(scope: &Scope<'_, 't>, sentence: &'t Prefixed) -> Option<Fault<'t>>
    ensures { faulted result ≡ sentence_fault_of (scope_of scope.now) (sentence_of sentence.now) }
{
    let vars = vars_of(&sentence.prefix);
    if let Some(fault) = variables_fault(scope, vars) {
        return Some(fault);
    }
    formula_fault(&with_vars(scope, vars), &sentence.body)
}
