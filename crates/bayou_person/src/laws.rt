//! What the definitions come to: each law is the contract of a function that does nothing.
ghost use Rattle.std.specs.Prelude.{◌≡◌, ℕ, List};
ghost use Rattle.bayou_person.specs.declared.wish.Wish.{Wish};
ghost use Rattle.bayou_person.specs.declared.wish.WishFault.{WishFault};
ghost use Rattle.bayou_person.specs.declared.wish.WishFault.TheVariants.{OutOfMemory};
ghost use Rattle.bayou_person.specs.Wishes.{IsFaultOf, Wishes};

/// A line says one thing at the most.
pub fn a_line_says_one_thing()
    ensures { (text : List ℕ) (one other : Wish) → Wishes text one → Wishes text other → one ≡ other }
{}

/// A line that says something has no fault: nothing but want of memory keeps it from being read.
pub fn what_says_something_has_no_fault()
    ensures { (text : List ℕ) (wish : Wish) (why : WishFault) → Wishes text wish → IsFaultOf text why → why ≡ OutOfMemory }
{}
