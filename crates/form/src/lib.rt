// Question 5: is a strip well formed? Each chain is walked to its end, and its records are counted. No record is in two chains, since
// its column names the chain, and none comes twice in a chain that ends; so each is in one when the count is the number of records.
#![tactic(auto)]

ghost use Rattle.std.specs.Prelude.{◌≡◌, ◌<◌};
ghost use Rattle.defs.specs.Computing.Words.{well_formedb};
ghost use Rattle.striprecords.specs.Free.{Sized};
ghost use Rattle.form.specs.Answers.{Sizes};

use striprecords::Shape;

// Are length and limits kept?
pub fn measure(s: &[u16]) -> Option<Shape>
    ensures { Sizes s.now result }
{
    let l = s.len();
    if l < limits::LEADING_WORDS {
        return None;
    }
    let n = s[limits::COLUMNS];
    limits::figures(s[limits::WIDTH], s[limits::RESOLUTION], n, s[limits::GAP]).ok()?;
    if !limits::length_fits(n, l) {
        return None;
    }
    Some(Shape {
        width: striprecords::word(s, limits::WIDTH),
        columns: striprecords::word(s, limits::COLUMNS),
        records: limits::records_of(n, l),
    })
}

// Are all chains as they should be, and each record in one?
fn whole(s: &[u16], g: Shape) -> bool
    requires { Sized s.now g }
    ensures { result ≡ well_formedb s.now }
{
    let mut total = 0;
    for c in 0..g.columns {
        let Some(k) = chains::column_chain(s, g, c) else {
            return false;
        };
        total += k;
    }
    let Some(k) = chains::free_chain(s, g) else {
        return false;
    };
    total + k == g.records
}

// Question 5.
pub fn well_formed(s: &[u16]) -> bool
    ensures { result ≡ well_formedb s.now }
{
    measure(s).is_some_and(|g| whole(s, g))
}
