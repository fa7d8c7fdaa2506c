//! Laws that callers cite. The contract of each function is the law; its body only cites other laws.
ghost use Rattle.meta.specs.Laws.{FoundIsPreferred, NextIsPreferred};

/// The match that a search of the pattern returns is a preferred one, and so is each match of an iteration. So
/// `Regex::groups_of` finds its groups.
pub fn matches_are_preferred()
    ensures found { FoundIsPreferred }
    ensures next { NextIsPreferred }
{}
