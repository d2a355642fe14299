//! The numbers of the variables, and the literals of variables.
ghost use Rattle.std.specs.Prelude.{◌≡◌, ◌≢◌, ◌<◌, ◌≤◌, ◌^◌};
ghost use Rattle.placement_clauses.specs.Number.{plus, minus, row_var, col_var, differ_var, pair_var, way_var, var_count_of};

use clause_base::Lit;

/// The variable of a label's row.
pub(crate) fn row_var(label: u32, row: u32) -> u32
    requires label { label < 512 }
    requires row { row < 32 }
    ensures { result ≡ row_var label row }
{
    48 * label + row + 1
}

/// The variable of a label's column.
pub(crate) fn col_var(label: u32, col: u32) -> u32
    requires label { label < 512 }
    requires col { col < 16 }
    ensures { result ≡ col_var label col }
{
    48 * label + 33 + col
}

/// The variable of two labels' rows, in the labels' order.
pub(crate) fn differ_var(labels: u32, earlier: u32, later: u32) -> u32
    requires labels { labels ≤ 512 }
    requires ordered { earlier < later }
    requires later { later < labels }
    ensures { result ≡ differ_var labels earlier later }
{
    48 * labels + later * (later - 1) / 2 + earlier + 1
}

/// The variable of two labels' rows, in any order.
pub(crate) fn pair_var(labels: u32, first: u32, second: u32) -> u32
    requires labels { labels ≤ 512 }
    requires apart { first ≢ second }
    requires first { first < labels }
    requires second { second < labels }
    ensures { result ≡ pair_var labels first second }
{
    if first < second {
        differ_var(labels, first, second)
    } else {
        differ_var(labels, second, first)
    }
}

/// The variable of one of the three ways in which a `goto` jumps.
pub(crate) fn way_var(labels: u32, label: u32, way: u32) -> u32
    requires labels { labels ≤ 512 }
    requires label { label < labels }
    requires way { way < 3 }
    ensures { result ≡ way_var labels label way }
{
    48 * labels + labels * (labels - 1) / 2 + 3 * label + way + 1
}

/// The number of variables for so many labels.
pub(crate) fn vars_of(labels: u32) -> u32
    requires { labels ≤ 512 }
    ensures { result ≡ var_count_of labels }
{
    48 * labels + labels * (labels.max(1) - 1) / 2 + 3 * labels
}

/// The literal of a variable.
pub(crate) fn positive(var: u32) -> Lit
    requires above { 0 < var }
    requires below { var < 2 ^ 31 }
    ensures { result ≡ plus var }
{
    match Lit::new(var as i32) {
        Some(lit) => lit,
        None => unreachable!(),
    }
}

/// The negated literal of a variable.
pub(crate) fn negative(var: u32) -> Lit
    requires above { 0 < var }
    requires below { var < 2 ^ 31 }
    ensures { result ≡ minus var }
{
    positive(var).negated()
}
