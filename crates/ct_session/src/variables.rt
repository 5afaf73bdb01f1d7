ghost use Rattle.std.specs.Prelude.{◌≡◌, ◌<◌, length, set, slice_index_or, position, Some, None};
ghost use Rattle.ct_types.specs.declared.catalogue.Variable.{Variable};
ghost use Rattle.ct_bind_names.specs.Names.{same};
ghost use Rattle.ct_session.specs.SetDeclare.{with_value};

use ct_bind_names::same_name;
use ct_types::{List, Text, Value, Variable};
use std::alloc::Global;
use std::mem;

/// The place of the variable of a name.
pub(crate) fn place_of(variables: &[Variable], name: &Text) -> Option<usize>
    ensures { result ≡ position (λ variable. same variable.name name.now) variables.now }
{
    variables.iter().position(|variable| same_name(variable.name.as_str(), name.as_str()))
}

/// Gives the variable at the place of a name another value.
pub(crate) fn put_value(
    alloc: Global,
    variables: &mut List<Variable>,
    name: &Text,
    place: usize,
    value: Value,
)
    requires { position (λ variable. same variable.name name.now) variables.old ≡ Some place }
    ensures { variables.new ≡ with_value variables.old name.now value }
{
    let mut items = mem::replace(variables, List::new(alloc)).into_vec();
    let variable = &mut items[place];
    variable.value = value;
    *variables = List::from_vec(items);
}
