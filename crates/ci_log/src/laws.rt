//! Laws of log books, and of trees in a region. Nothing happens when they run.
ghost use Rattle.std.specs.Prelude.{◌≡◌, ℕ, ◌+◌, ◌*◌, ◌≤◌, List, length, ◌⊎◌};
ghost use Rattle.ci_log.specs.Trees.{IsTree};
ghost use Rattle.ci_log.specs.Packed.{packed};
ghost use Rattle.ci_log.specs.Books.{Book, SpellsIn, Spells};
ghost use Rattle.ci_log.specs.Faults.{HasFault};
ghost use Rattle.ci_log.specs.declared.book.Version.{Version};
ghost use Rattle.ci_log.specs.declared.faults.LogFault.{LogFault};
ghost use Rattle.ci_log.specs.declared.flattening.Child.{Child};
ghost use Rattle.ci_log.specs.declared.log.Item.{Item};
ghost use Rattle.ci_log.specs.RegionTrees.{Slots, IsTreeIn};

/// A text spells one book at most.
pub fn a_text_has_one_book()
    ensures { (text : List ℕ) (book other : Book) → Spells text book → Spells text other → book ≡ other }
{}

/// A book is spelt by one text at most in each version.
pub fn a_book_has_one_text()
    ensures { (version : Version) (text other : List ℕ) (book : Book) → SpellsIn version text book
        → SpellsIn version other book → text ≡ other }
{}

/// No text spells a book in both versions.
pub fn a_text_has_one_version()
    ensures { (text : List ℕ) (version other : Version) (book another : Book) → SpellsIn version text book
        → SpellsIn other text another → version ≡ other }
{}

/// Two trees have two packed spellings.
pub fn packed_bytes_are_those_of_one_tree()
    ensures { (items others : List Item) → IsTree items → IsTree others → packed items ≡ packed others
        → items ≡ others }
{}

/// A tree has at most four times as many items as its packed spelling has bytes, and one.
pub fn a_packed_tree_has_few_items()
    ensures { (items : List Item) → IsTree items → length items ≤ 1 + 4 * length (packed items) }
{}

/// No text that spells a book has a fault.
pub fn a_text_with_a_book_has_no_fault()
    ensures { (text : List ℕ) (book : Book) (fault : LogFault) → Spells text book → ¬ HasFault text fault }
{}

/// A text has one fault at most.
pub fn a_text_has_one_fault()
    ensures { (text : List ℕ) (fault other : LogFault) → HasFault text fault → HasFault text other
        → fault ≡ other }
{}

/// A text of at most 268,435,456 bytes spells a book or has a fault.
pub fn a_text_has_a_book_or_a_fault()
    ensures { (text : List ℕ) → length text ≤ 268435456
        → ((book : Book) × Spells text book) ⊎ ((fault : LogFault) × HasFault text fault) }
{}

/// The tree of a child has one list of items, by what the slots hold.
pub fn a_tree_has_one_list_of_items()
    ensures { (slots rest other : Slots) (child : Child) (items others : List Item)
        → IsTreeIn slots child items rest → IsTreeIn slots child others other → items ≡ others }
{}
