ghost use Rattle.std.specs.Prelude.{◌≡◌, ◌↔◌, ◌<◌, IsTrue, length};
ghost use Rattle.std.specs.List.{AllByRecursion};
ghost use Rattle.ct_applies.specs.Cuts.{IsCut, IsTwoNames};
ghost use Rattle.ct_model.specs.Names.{folded, IsNameByte, IsName, IsTableName, IsInSys};

use ct_types::Text;

fn is_name_byte(byte: u8) -> bool
    ensures { IsTrue result ↔ IsNameByte byte }
{
    byte >= 32 && byte <= 126 && byte != 93
}

fn are_name_bytes(name: &[u8]) -> bool
    ensures { IsTrue result ↔ AllByRecursion IsNameByte name.now }
{
    name.iter().all(|byte| is_name_byte(*byte))
}

/// Whether the bytes are a name: 1 to 128 characters from space to `~`, and no `]`.
pub(crate) fn is_name(name: &[u8]) -> bool
    ensures { IsTrue result ↔ IsName name.now }
{
    name.len() >= 1 && name.len() <= 128 && are_name_bytes(name)
}

/// Whether a full stop at this place stands between two names.
fn is_cut(name: &[u8], at: usize) -> bool
    requires { at < length name.now }
    ensures { IsTrue result ↔ IsCut name.now at }
{
    name[at] == 46 && is_name(&name[..at]) && is_name(&name[at + 1..])
}

fn is_two_names(name: &[u8]) -> bool
    ensures { IsTrue result ↔ IsTwoNames name.now }
{
    for at in 0..name.len() {
        if is_cut(name, at) {
            return true;
        }
    }
    false
}

/// Whether the bytes are a name, or two with a full stop between them.
pub(crate) fn is_table_name(name: &[u8]) -> bool
    ensures { IsTrue result ↔ IsTableName name.now }
{
    is_name(name) || is_two_names(name)
}

/// Whether the name begins with `sys.`, with ASCII letters folded, and goes on.
pub(crate) fn is_in_sys(name: &[u8]) -> bool
    ensures { IsTrue result ↔ IsInSys name.now }
{
    name.len() > 4 && name[..4].eq_ignore_ascii_case(b"sys.")
}

/// Whether two names are the same, with ASCII letters folded.
pub fn is_same_name(a: &[u8], b: &[u8]) -> bool
    ensures { IsTrue result ↔ (folded a.now ≡ folded b.now) }
{
    a.eq_ignore_ascii_case(b)
}
