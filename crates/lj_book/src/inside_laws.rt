//! Laws of additions inside by seats that name their variables. The functions do nothing.
ghost use Rattle.lj_book.specs.NamedInside.{RepliesAreBeneath, EntriesAreBeneath};

/// Where as many joint variables are left, an addition inside is answered as the one in joint variables is, and its entry
/// is that one's. Takes constant time.
pub fn additions_are_beneath()
    ensures replies { RepliesAreBeneath }
    ensures entries { EntriesAreBeneath }
{}
