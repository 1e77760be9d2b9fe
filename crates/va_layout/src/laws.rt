// Laws of the file, each as the contract of a function that does nothing.
ghost use Rattle.std.specs.Prelude.{◌≡◌, List, ℕ};
ghost use Rattle.va_core.specs.Codes.{packed};
ghost use Rattle.va_core.specs.Marks.{AreValid, HasShape, cell};
ghost use Rattle.va_core.specs.Places.{IsItem, Item};
ghost use Rattle.va_core.specs.Shape.{Shape};
ghost use Rattle.va_layout.specs.Fields.{NamesCell};
ghost use Rattle.va_layout.specs.Layout.{FollowOn};
ghost use Rattle.va_layout.specs.Stands.{IsBlank, Kept, Opens, Stands};

/// The parts of a file follow one another without a gap, whatever the shape.
pub fn parts_follow_on()
    ensures { (shape : Shape) → FollowOn shape }
{}

/// An image opens as at most one kept part, and so it stands for at most one.
pub fn stands_for_one()
    ensures opens { (image : List ℕ) (a b : Kept) → Opens a image → Opens b image → a ≡ b }
    ensures stands { (image : List ℕ) (a b : Kept) → Stands a image → Stands b image → a ≡ b }
{}

/// A blank image opens as nothing, and so it stands for nothing.
pub fn blank_stands_for_none()
    ensures opens { (image : List ℕ) (kept : Kept) → IsBlank image → Opens kept image → ⊥ }
    ensures stands { (image : List ℕ) (kept : Kept) → IsBlank image → Stands kept image → ⊥ }
{}

/// The own code of an item names a cell, under whatever marks. So no image that stands is refused for a code.
pub fn own_codes_name_cells()
    ensures { (shape : Shape) (marks : List (List ℕ)) (item : Item) → HasShape shape marks → AreValid marks → IsItem shape.dims item
        → NamesCell shape marks (packed shape (cell marks item.vector)) }
{}
