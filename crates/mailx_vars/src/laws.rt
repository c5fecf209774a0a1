ghost use Rattle.mailx_vars.specs.SettingLaws.{SetAgainIsLast, SetGives, SetKeepsOrder, UnsetTakes};

/// Laws of variables: what is set is found again, what is unset is not, and nothing else changes; a variable that
/// was set keeps its place, and one that is new, or was unset, stands last.
pub fn variables_are_kept()
    ensures gives { SetGives }
    ensures takes { UnsetTakes }
    ensures order { SetKeepsOrder }
    ensures last { SetAgainIsLast }
{}
