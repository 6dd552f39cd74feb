//! The directives of a package with a number. Numbers rise in each list of a recipe, so they are
//! found by binary searches.
ghost use Rattle.std.specs.Prelude.{◌≡◌, ◌≤◌, ◌==◌, length, filter};
ghost use Rattle.std.specs.List.{slice_range};
ghost use Rattle.std.specs.Ordering.{nat_cmp};
ghost use Rattle.keyed_lists.specs.Keyed.{IsInOrder};
ghost use Rattle.problem.specs.Problems.{depends_at, conflicts_at, requirements_at};

use problem::{Problem, conflicts_at, depends_at, requirements_at};
use recipe_data::{ConflictRow, DependRow, RequireRow};

/// A row of a list in which numbers rise.
trait Numbered {
    ghost use Rattle.std.specs.Prelude.{◌≡◌, ℕ};

    ghost number_of: { Self → ℕ };

    /// Its number.
    fn number(&self) -> u64
        ensures { result ≡ number_of self.now };
}

impl Numbered for DependRow {
    ghost number_of = { λ row. row.number };

    fn number(&self) -> u64 {
        self.number
    }
}

impl Numbered for ConflictRow {
    ghost number_of = { λ row. row.number };

    fn number(&self) -> u64 {
        self.number
    }
}

impl Numbered for RequireRow {
    ghost number_of = { λ row. row.number };

    fn number(&self) -> u64 {
        self.number
    }
}

// Where the rows with a number begin and end.
fn bounds_of<T: Numbered>(rows: &[T], number: u64) -> (usize, usize)
    requires { IsInOrder nat_cmp T.number_of rows.now }
    ensures bounds { result.0 ≤ result.1 }
    ensures within { result.1 ≤ length rows.now }
    ensures run { slice_range rows.now result.0 result.1
        ≡ filter (λ row. T.number_of row == number) rows.now }
{
    let first = rows.partition_point(|row| row.number().cmp(&number).is_lt());
    let end = rows.partition_point(|row| row.number().cmp(&number).is_le());
    (first, end)
}

fn with_number<T: Numbered>(rows: &[T], number: u64) -> &[T]
    requires { IsInOrder nat_cmp T.number_of rows.now }
    ensures { result.now ≡ filter (λ row. T.number_of row == number) rows.now }
{
    let (first, end) = bounds_of(rows, number);
    &rows[first..end]
}

/// The dependencies of the package with this number.
pub(crate) fn depends_with<'a>(problem: &'a Problem, name: &str, number: u64) -> &'a [DependRow]
    ensures { result.now ≡ filter (λ row. row.number == number) (depends_at problem.now name.now) }
{
    // They promise that numbers rise.
    let _recipes = problem.recipes();
    with_number(depends_at(problem, name), number)
}

/// The conflicts of the package with this number.
pub(crate) fn conflicts_with<'a>(problem: &'a Problem, name: &str, number: u64) -> &'a [ConflictRow]
    ensures { result.now ≡ filter (λ row. row.number == number)
        (conflicts_at problem.now name.now) }
{
    let _recipes = problem.recipes();
    with_number(conflicts_at(problem, name), number)
}

/// The requirements of the package with this number.
pub(crate) fn requirements_with<'a>(
    problem: &'a Problem,
    name: &str,
    number: u64,
) -> &'a [RequireRow]
    ensures { result.now ≡ filter (λ row. row.number == number)
        (requirements_at problem.now name.now) }
{
    let _recipes = problem.recipes();
    with_number(requirements_at(problem, name), number)
}
