// What a section has twice, once for each of its lines.
ghost use Rattle.std.specs.Prelude.{◌≡◌};
ghost use Rattle.std.specs.Borrow.{sem, Lends};

use events::field::Direction;

#[derive(Clone, Copy, Debug, PartialEq, Eq)]
pub struct PerLine<T> {
    pub up: T,
    pub down: T,
}

impl<T> PerLine<T> {
    ghost use Rattle.section.specs.PerLines.{on, with_on};
    ghost use Rattle.section.specs.contracts.per_line.PerLine.{the_row};

    // One for each line, as `of` makes it.
    pub(crate) fn each<F: Fn(Direction) -> T>(of: F) -> PerLine<T>
        requires { F.IsAlwaysCallable of }
        ensures { F.post of Direction.Up result.up × F.post of Direction.Down result.down }
    {
        PerLine {
            up: of(Direction::Up),
            down: of(Direction::Down),
        }
    }

    pub fn on(&self, line: Direction) -> &T
        ensures { result.now ≡ on line self.now }
    {
        match line {
            Direction::Up => &self.up,
            Direction::Down => &self.down,
        }
    }

    pub fn on_mut(&mut self, line: Direction) -> &mut T
        ensures* writes_back { sem 𝓛 (Lends (the_row T.row) T.row self.entry result (with_on line self.old)) }
        ensures value { result.now ≡ on line self.old }
    {
        match line {
            Direction::Up => &mut self.up,
            Direction::Down => &mut self.down,
        }
    }
}
