// What an accepted setup says of the whole run.
ghost use Rattle.std.specs.Prelude.{◌≤◌};
ghost use Rattle.terms.specs.Limits.{most_processes};
ghost use Rattle.model.specs.Bounds.{Sound};

use model::Shape;

#[derive(Clone, Copy)]
pub struct Course {
    pub shape: Shape,
    ghost sound: { Sound shape },
    ghost few: { shape.count ≤ most_processes },
}
