// The report's lines, from a plan and its prices.
ghost use Rattle.std.specs.Prelude.{◌≡◌, ◌≤◌, ◌<◌, length, get_or};
ghost use Rattle.std.proofs.lemmas.List.Edits.{sets};
ghost use Rattle.report_spec.specs.Printed.{end_line, refused_line};
ghost use Rattle.report_line.specs.Reports.{plan_text, dim_text};

use crate::printing::put_line;
use plan_spec::types::{Plan, Prices};

// "refused N".
pub fn refused_line(out: &mut [u8], n: u8) -> usize
    requires { 40 ≤ length out.old }
    ensures { (result ≡ length (refused_line n)) × (result ≤ length out.new)
        × (out.new ≡ sets out.old 0 (refused_line n)) }
{
    put_line(out, b"refused", &[u64::from(n)])
}

// The end line.
pub fn end_line(out: &mut [u8], n: u64) -> usize
    requires { 40 ≤ length out.old }
    ensures { (result ≡ length (end_line n)) × (result ≤ length out.new) × (out.new ≡ sets out.old 0 (end_line n)) }
{
    put_line(out, b"end", &[n])
}

// The plan line.
pub fn plan_line(out: &mut [u8], plan: Plan, prices: Prices) -> usize
    requires { 120 ≤ length out.old }
    ensures { (result ≡ length (plan_text plan prices)) × (result ≤ length out.new) × (out.new ≡ sets out.old 0 (plan_text plan prices)) }
{
    let values = [
        u64::from(plan.axes),
        u64::from(plan.p),
        prices.moved,
        prices.added,
        prices.share,
    ];
    put_line(out, b"plan", &values)
}

// The line of the axis at place d.
pub fn dim_line(out: &mut [u8], plan: Plan, d: usize) -> usize
    requires { (120 ≤ length out.old) × (d < 8) × (get_or plan.order d 0 < 8) }
    ensures { (result ≡ length (dim_text plan d)) × (result ≤ length out.new) × (out.new ≡ sets out.old 0 (dim_text plan d)) }
{
    let axis = plan.order[d];
    let a = usize::from(axis);
    let values = [
        u64::from(axis),
        u64::from(plan.lengths[a]),
        u64::from(plan.exponents[a]),
    ];
    put_line(out, b"dim", &values)
}
