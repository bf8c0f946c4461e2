//! Numbers that are over the greatest one of a limit.
ghost use Rattle.std.specs.Prelude.{◌≡◌, ◌∷◌, [], nat_lt, find, option_map};

use bw_lang::Limit;

/// The number, where it is over the greatest one.
pub(crate) fn over(most: u64, number: u64) -> Option<u64>
    ensures { result ≡ find (nat_lt most) (number ∷ []) }
{
    if number > most { Some(number) } else { None }
}

/// The limit with the number that passes it, where one does.
pub(crate) fn passed(limit: Limit, number: Option<u64>) -> Option<(Limit, u64)>
    ensures { result ≡ option_map (λ n. (limit, n)) number }
{
    number.map(|number| (limit, number))
}
