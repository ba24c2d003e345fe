//! Levels of operators.

ghost use Rattle.std.specs.Prelude.{◌≡◌};
ghost use Rattle.parse_steps.specs.Levels.{next};

/// The levels of the binary operators that associate to the left, from the lowest.
#[derive(Clone, Copy, PartialEq, Eq)]
pub enum Rank {
    Ors,
    Ands,
    Comparisons,
    Sums,
    Products,
}

/// What an expression may be: anything of a level or of a higher one.
#[derive(Clone, Copy, PartialEq, Eq)]
pub enum Level {
    Of(Rank),
    /// A run of `..`, or what is higher.
    Runs,
    /// No binary operator but `^`.
    Unaries,
}

/// What stands behind an operator.
pub fn next_level(rank: Rank) -> Level
    ensures { result ≡ next rank }
{
    match rank {
        Rank::Ors => Level::Of(Rank::Ands),
        Rank::Ands => Level::Of(Rank::Comparisons),
        Rank::Comparisons => Level::Runs,
        Rank::Sums => Level::Of(Rank::Products),
        Rank::Products => Level::Unaries,
    }
}
