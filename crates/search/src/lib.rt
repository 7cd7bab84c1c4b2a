// The search by digits: the first passing row from a candidate on.

#![tactic(auto)]

ghost use Rattle.std.specs.Prelude.{◌≡◌, true, suc, take};
ghost use Rattle.columns.specs.Tasks.{tasks_in};
ghost use Rattle.search.specs.Search.{Begun, Barren, Tests, Finds};

use columns::Tasks;
use rows::Digits;

// Whether the first 2n digits are a passing row.
fn row_passes(y: &Tasks, digits: &Digits) -> bool
    ensures { Tests (tasks_in y.now) result digits.now }
{
    let p = rows::priorities_of(y.n, digits);
    let h = rows::numbers_from(y.n, digits, y.n);
    rows::front_holds(y.n, digits, &p, &h) && response::passes(y, &p, &h)
}

// Whether no passing row begins with the digits up to place pos. It may say no where it does not know: so far it cuts only what can't stand
// in a well-formed row, and the tasks are there for a cut that looks at times.
fn hopeless(y: &Tasks, digits: &Digits, pos: usize) -> bool
    requires { Begun y.now.n digits.now pos }
    ensures { result ≡ true → Barren (tasks_in y.now) digits.now (suc pos) }
{
    !rows::fits(y.n, digits, pos)
}

// The first passing row that begins with the first at + 1 digits of start or is later.
pub fn search(y: &Tasks, start: Digits, at: usize) -> Option<Digits>
    requires { Begun y.now.n start at }
    ensures { Finds (tasks_in y.now) (take (suc at) start) result }
{
    let mut digits = start;
    let mut pos = at;
    // No `for`: a turn goes on to the next place or back to the one before.
    loop {
        let x = digits[pos];
        if usize::from(x) > y.n {
            // This place is done: back to the one before it.
            if pos == 0 {
                return None;
            }
            pos -= 1;
            digits[pos] += 1;
        } else if hopeless(y, &digits, pos) {
            digits[pos] = x + 1;
        } else if pos + 1 == 2 * y.n {
            if row_passes(y, &digits) {
                return Some(digits);
            }
            digits[pos] = x + 1;
        } else {
            // The digits so far may lead to a row: on to the next place.
            pos += 1;
            digits[pos] = 1;
        }
    }
}
