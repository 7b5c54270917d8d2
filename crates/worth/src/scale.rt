// Scales of worth.
ghost use Rattle.std.specs.Prelude.{◌≡◌, true};
ghost use Rattle.worth.specs.Scales.{Joins, Lawful, joined};

// A scale says what a kept line is worth (won) and what a broken one is (lost),
// and how the worths of a part line's two branches join: `either` where a reply
// is next, `both` where a report is.
pub trait Scale {
    type Worth: Copy + PartialEq;

    const LOST: Self::Worth;

    const WON: Self::Worth;

    // The two constants, as proofs see them.
    ghost LOST: { Self.Worth };

    ghost WON: { Self.Worth };

    ghost joins: { Joins Self.Worth };

    fn either(first: Self::Worth, second: Self::Worth) -> Self::Worth
        ensures { result ≡ joins.either first second };

    fn both(first: Self::Worth, second: Self::Worth) -> Self::Worth
        ensures { result ≡ joins.both first second };

    // Yes only of a worth that `either` keeps whatever comes second.
    fn unbeatable(worth: Self::Worth) -> bool
        ensures { result ≡ true → (other : Self.Worth) → joins.either worth other ≡ worth };

    // The constants are the worths of a broken and of a kept line.
    ghost lost: { LOST ≡ joins.lost };

    ghost won: { WON ≡ joins.won };

    // Lost changes nothing in `either` and everything in `both`.
    ghost lawful: { Lawful joins };

    // `==` says yes only of equal worths.
    ghost tells: { (a b : Self.Worth) → (Self.Worth.PartialEq.eq a b ≡ true) → a ≡ b };
}

// The worth of a position's two branches: of a report both, of a reply either.
// `report` is a bool and no `Kind`, since in the walk it is also the second
// branch's value.
pub(crate) fn join<S: Scale>(report: bool, first: S::Worth, second: S::Worth) -> S::Worth
    ensures { result ≡ joined S.Scale.joins report first second }
{
    if report {
        S::both(first, second)
    } else {
        S::either(first, second)
    }
}

// Yes only where the second branch cannot change what the first is worth; `report`
// as in `join`.
pub(crate) fn is_settled<S: Scale>(report: bool, first: S::Worth) -> bool
    ensures { result ≡ true → (second : S.Worth) → joined S.Scale.joins report first second ≡ first }
{
    if report {
        first == S::LOST
    } else {
        S::unbeatable(first)
    }
}
