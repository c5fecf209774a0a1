ghost use Rattle.std.specs.Prelude.{◌≡◌, [], IfOk};
ghost use Rattle.alias_groups.specs.Expansion.{dropped_names};
ghost use Rattle.name_lists.specs.Names.{with_names};

use mail_text::{Items, Memory, Text};
use name_lists::Names;
use std::alloc::Global;

/// The user's own names.
#[derive(Drop)]
pub struct Own {
    /// The user.
    pub user: Text,
    /// Other names of the user.
    pub alternates: Items<Text>,
}

/// These names in order of first naming, each once, ASCII case ignored.
pub fn each_once(alloc: Global, names: &[Text]) -> Result<Items<Text>, Memory>
    ensures { IfOk result (λ once. once ≡ with_names [] names.now) }
{
    let mut once = Names::new(alloc);
    once.add(names)?;
    Ok(Items::of(once.into_vec()))
}

/// The own names that are left out: none with `metoo`. Names that an alias stands for are left out so, and those to whom
/// a message went that is answered.
pub fn dropped_names(alloc: Global, own: &Own, metoo: bool) -> Result<Names, Memory>
    ensures { IfOk result (λ names. names ≡ dropped_names own.now metoo) }
{
    let mut names = Names::new(alloc);
    if !metoo {
        names.put(own.user.bytes())?;
        names.add(own.alternates.items())?;
    }
    Ok(names)
}
