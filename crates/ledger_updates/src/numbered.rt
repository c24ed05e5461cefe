//! Entries by the number of a job or a machine.

ghost use Rattle.std.specs.Prelude.{◌≡◌, ◌+◌, ◌<◌, true, not, nat_eq, length, map, filter, get_or, take};
ghost use Rattle.fuxi_terms.specs.Numbers.{has_number};
ghost use Rattle.std.specs.List.Sorted.{IsNonDecreasingBy};
ghost use Rattle.ledger_updates.specs.OfNumbers.{turn, turns};

// Whether the entries stand in the order of their numbers.
pub(crate) fn are_rising<T: Copy>(entries: &[(usize, T)]) -> bool
    ensures { result ≡ true → IsNonDecreasingBy (λ e. e.0) entries.now }
{
    for index in 1..entries.len() {
        if entries[index].0 < entries[index - 1].0 {
            return false;
        }
    }
    true
}

// The number whose turn it is: the numbers of the entries come first, and then the others. None where it had its turn before.
pub(crate) fn turn<T: Copy>(entries: &[(usize, T)], others: &[usize], index: usize) -> Option<usize>
    requires rising { IsNonDecreasingBy (λ e. e.0) entries.now }
    requires within { index < length entries.now + length others.now }
    ensures { result ≡ turn index (turns entries.now others.now) }
{
    let len = entries.len();
    if index < len {
        let first = is_first(entries, index);
        return first.then_some(entries[index].0);
    }
    let number = others[index - len];
    if has_number(entries, number) {
        return None;
    }
    if others[..index - len].contains(&number) {
        return None;
    }
    Some(number)
}

// Whether no entry before this one has its number.
fn is_first<T: Copy>(entries: &[(usize, T)], index: usize) -> bool
    requires rising { IsNonDecreasingBy (λ e. e.0) entries.now }
    requires within { index < length entries.now }
    ensures { result ≡ not (has_number (get_or (map (λ e. e.0) entries.now) index 0) (take index (map (λ e. e.0) entries.now))) }
{
    if index == 0 {
        return true;
    }
    entries[index - 1].0 < entries[index].0
}

// Whether an entry has this number.
fn has_number<T: Copy>(entries: &[(usize, T)], number: usize) -> bool
    requires { IsNonDecreasingBy (λ e. e.0) entries.now }
    ensures { result ≡ has_number number (map (λ e. e.0) entries.now) }
{
    !run_of(entries, number).is_empty()
}

// The entries with this number, which stand side by side.
pub(crate) fn run_of<T: Copy>(entries: &[(usize, T)], number: usize) -> &[(usize, T)]
    requires { IsNonDecreasingBy (λ e. e.0) entries.now }
    ensures { result.now ≡ filter (λ e. nat_eq e.0 number) entries.now }
{
    let rest = &entries[entries.partition_point(|entry| entry.0 < number)..];
    &rest[..rest.partition_point(|entry| entry.0 <= number)]
}
