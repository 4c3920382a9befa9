// Questions 7 to 11 of one outline.
#![tactic(auto)]

ghost use Rattle.std.specs.Prelude.{◌≤◌};
ghost use Rattle.defs.specs.Meaning.Question.{Question10};
ghost use Rattle.outline.specs.Vertex.{Lent, BoundsOf};
ghost use Rattle.checks.specs.Says.{Says};
ghost use Rattle.asked.specs.Answers.{AllowedCell, SomeCell, order_no, FirstOf};

use outline::Bounds;

// Whether turn t is allowed and a cell is covered in it.
fn allowed_cell(o: &[u16], b: Bounds, mask: u16, t: u16) -> bool
    requires fact_1 { Lent o.now }
    requires fact_2 { BoundsOf o.now b }
    requires fact_3 { t ≤ 3 }
    requires fact_4 { Question10 o.now mask }
    ensures { AllowedCell o.now mask t result }
{
    checks::allows(mask, t) && inside::has_cell(o, b, t)
}

// Question 11: whether a cell is covered in an allowed turn.
pub fn some_cell(o: &[u16], b: Bounds, mask: u16) -> bool
    requires fact_1 { Lent o.now }
    requires fact_2 { BoundsOf o.now b }
    requires fact_3 { Question10 o.now mask }
    ensures { SomeCell o.now mask result }
{
    (0..4).any(|t| allowed_cell(o, b, mask, t))
}

// Questions 7 to 10. `ninth` is the answer to 9.
pub fn order(o: &[u16], ninth: bool, mask: u16) -> Result<Bounds, u16>
    ensures { Says o.now (order_no o.now ninth mask) result }
{
    let b = checks::bounds(o)?;
    if !ninth {
        return Err(9);
    }
    if !checks::all_keep_order(o, b, mask) {
        return Err(10);
    }
    Ok(b)
}

// Questions 7 to 11: the first that gets "no".
pub fn ask_outline(o: &[u16], ninth: bool, mask: u16) -> Result<(), u16>
    ensures { FirstOf o.now ninth mask result }
{
    let b = order(o, ninth, mask)?;
    if some_cell(o, b, mask) {
        Ok(())
    } else {
        Err(11)
    }
}
