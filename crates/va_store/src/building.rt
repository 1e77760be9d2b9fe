// Marks that are being built.
ghost use Rattle.std.specs.Prelude.{◌≡◌, None};
ghost use Rattle.va_core.specs.Marks.{HasShape};
ghost use Rattle.va_store.specs.Builds.{IsFor};

use std::marker::Model;
use va_core::Shape;
use va_marks::Marks;

/// Marks that are being built, and the last id that was converted to them.
#[derive(Drop)]
pub(crate) struct Building {
    pub(crate) marks: Marks,
    pub(crate) last: Option<u32>,
}

impl Model for Building {
    ghost use Rattle.va_layout.specs.Stands as stands;

    ghost Value = { stands.Building };

    ghost view = { λ building. record { marks = building.marks; last = building.last } };
}

impl Building {
    /// No id was converted yet.
    pub(crate) fn new(shape: Shape, marks: Marks) -> Building
        requires { HasShape shape marks }
        ensures building { result ≡ record { marks = marks; last = None } }
        ensures fit { IsFor shape result }
    {
        // Looks at the shape and at the marks show that there is a dimension, and that the marks are valid.
        let _dims = shape.dims();
        let _count = marks.count(0);
        Building { marks, last: None }
    }
}
