// What is in scope at a place, and what is wrong with a name there.

ghost use Rattle.std.specs.Prelude.{◌≡◌};
ghost use Rattle.typing_rules.specs.Scope.{is_param as is_param_of, is_var as is_var_of};
ghost use Rattle.typing_rules.specs.Scope.{in_scope as in_scope_of};
ghost use Rattle.typing_rules.specs.Scope.{stranger_fault as stranger_fault_of};
ghost use Rattle.typing_rules.specs.Scope.{declared_fault as declared_fault_of};
ghost use Rattle.typing_rules.specs.Scope.{sort_fault as sort_fault_of};
ghost use Rattle.typing_rules.specs.Scope.{sort_number as sort_number_of};
ghost use Rattle.spec_types.specs.{faults.Names.{meaning_in}, faults.Views.{faulted, scope_of}};

use crate::faults::draft::Draft;
use crate::faults::fault::Fault;
use crate::faults::names::Names;
use spec_trees::{Mark, Param, Variable};

/// What is in scope at a place: what is declared for the whole specification, and the parameters and variables.
#[derive(Clone, Copy)]
pub struct Scope<'d, 't> {
    pub draft: &'d Draft,
    pub names: &'d Names,
    pub params: &'t [Param],
    pub vars: &'t [Variable],
}

fn is_param(name: &[u8], params: &[Param]) -> bool
    ensures { result ≡ is_param_of name.now params.now }
{
    params.iter().any(|param| param.name.text.bytes() == name)
}

fn is_var(name: &[u8], vars: &[Variable]) -> bool
    ensures { result ≡ is_var_of name.now vars.now }
{
    vars.iter().any(|var| var.name.text.bytes() == name)
}

fn in_scope(scope: &Scope<'_, '_>, name: &[u8]) -> bool
    ensures { result ≡ in_scope_of (scope_of scope.now) name.now }
{
    scope.names.get(name).is_some() || is_param(name, scope.params) || is_var(name, scope.vars)
}

/// A name that isn't what its place needs: unknown where it isn't in scope.
pub fn stranger_fault<'t>(scope: &Scope<'_, '_>, mark: &'t Mark) -> Option<Fault<'t>>
    ensures { faulted result ≡ stranger_fault_of (scope_of scope.now) mark.now }
{
    if in_scope(scope, mark.text.bytes()) {
        Some(Fault::Kind(mark))
    } else {
        Some(Fault::Unknown(mark))
    }
}

/// A name that is declared while it is in scope.
pub fn declared_fault<'t>(scope: &Scope<'_, '_>, mark: &'t Mark) -> Option<Fault<'t>>
    ensures { faulted result ≡ declared_fault_of (scope_of scope.now) mark.now }
{
    if in_scope(scope, mark.text.bytes()) {
        Some(Fault::Twice(mark))
    } else {
        None
    }
}

/// A name that needs to be a sort, where another one is being declared.
pub fn sort_fault<'t>(scope: &Scope<'_, '_>, own: &[u8], mark: &'t Mark) -> Option<Fault<'t>>
    ensures { faulted result ≡ sort_fault_of (scope_of scope.now) own.now mark.now }
{
    let name = mark.text.bytes();
    match scope.names.sort(name) {
        Some(_) => None,
        None => {
            if name == own {
                Some(Fault::Kind(mark))
            } else {
                stranger_fault(scope, mark)
            }
        }
    }
}

/// The place of a sort; what is no sort stands for the first one, and is refused.
pub fn sort_number(names: &Names, mark: &Mark) -> u8
    ensures { result ≡ sort_number_of (meaning_in names.now) mark.now }
{
    names.sort(mark.text.bytes()).unwrap_or(0)
}
