//! Services and what they need.
ghost use Rattle.std.specs.Prelude.{◌≡◌};
ghost use Rattle.services.specs.Rule.{kind_by, needs_at};

use search_context::path::PathKind;

/// What a service needs: another one, by its number, which is its place in a list of all.
#[derive(Clone, Copy, Debug, PartialEq, Eq)]
pub struct Need {
    pub service: usize,
    /// Whether it has to be up before. If not, it has to run, too, and may start later.
    pub comes_first: bool,
}

/// A service: what it needs.
#[derive(Debug, Drop)]
pub struct Service {
    pub needs: Vec<Need>,
}

impl Need {
    // What has to be up before is asked inductively.
    pub(crate) fn kind(self) -> PathKind
        ensures { result ≡ kind_by self.comes_first }
    {
        if self.comes_first {
            PathKind::Inductive
        } else {
            PathKind::Coinductive
        }
    }
}

/// What a service needs; a number that is no service's needs nothing.
pub fn needs_at(services: &[Service], number: usize) -> &[Need]
    ensures { result.now ≡ needs_at services.now number }
{
    match services.get(number) {
        Some(service) => service.needs.as_slice(),
        None => &[],
    }
}
