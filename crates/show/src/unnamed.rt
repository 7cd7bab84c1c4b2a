// Jobs whose name a list that was given doesn't reach: they are shown by their number, and this says why.

use paper::Table;
use show_sheet::Names;

// The first name number that stands in the house's list.
const FIRST_OF_HOUSE: u32 = 64;

// Whether the list that the number stands in was given and ends before the name. One that is empty was not given, or what is
// wrong with it was said.
fn ends_before<'a>(number: u32, names: Names<'a>) -> bool {
    let list = if number < FIRST_OF_HOUSE {
        names.cabinet
    } else {
        names.house
    };
    !list.is_empty() && parts::name_outcome(number, names.cabinet, names.house).is_err()
}

// The first such job is named.
pub fn tell<'a, R: Eprint>(rt: &R, t: &Table, names: Names<'a>) {
    for k in 0..first_jobs::jobs_of(t) {
        if ends_before(t.records[k].name, names) {
            let _ = eprintln!(rt;
                "the name list ends before the name of job {}; without a name a job is shown by its number",
                k + 1
            );
            return;
        }
    }
}
