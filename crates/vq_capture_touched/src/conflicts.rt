//! Accesses that conflict.
ghost use Rattle.std.specs.Prelude.{◌≡◌};
ghost use Rattle.vq_capture.specs.Races.{access_of, clash, conflict, is_write, same_command, share_unit};

use vq_capture::capture::Step;
use vq_capture::statement::{Access, AccessKind, Range, Statement};

/// What a line accesses.
pub fn access_of(said: &Statement) -> Option<Access>
    ensures { result ≡ access_of said.now }
{
    match said {
        Statement::HostAccess { access } => Some(*access),
        Statement::CommandAccess { access, scope: _ } => Some(*access),
        Statement::Transition {
            first: _,
            second: _,
            access,
        } => Some(*access),
        _ => None,
    }
}

/// Whether two ranges share a unit.
fn share_unit(a: Range, b: Range) -> bool
    ensures { result ≡ share_unit a b }
{
    let (first, second) = (u128::from(a.offset), u128::from(b.offset));
    first < second + u128::from(b.length) && second < first + u128::from(a.length)
}

/// Whether an access writes.
pub fn is_write(kind: AccessKind) -> bool
    ensures { result ≡ is_write kind }
{
    match kind {
        AccessKind::Read => false,
        AccessKind::Write => true,
    }
}

fn clash(a: Option<Access>, b: Option<Access>) -> bool
    ensures { result ≡ clash a b }
{
    let Some(a) = a else {
        return false;
    };
    let Some(b) = b else {
        return false;
    };
    a.resource == b.resource
        && share_unit(a.range, b.range)
        && (is_write(a.kind) || is_write(b.kind))
}

/// Whether two lines are of one command.
pub fn same_command(a: Option<u64>, b: Option<u64>) -> bool
    ensures { result ≡ same_command a b }
{
    match (a, b) {
        (Some(c), Some(d)) => c == d,
        _ => false,
    }
}

/// Whether the accesses of two lines clash, and aren't of one command.
pub fn conflict(a: &Step, b: &Step) -> bool
    ensures { result ≡ conflict a.now b.now }
{
    clash(access_of(&a.statement), access_of(&b.statement)) && !same_command(a.command, b.command)
}
