//! Which kinds of accesses a scope has.
//!
//! Source: Vulkan 1.3, "Access Types".
ghost use Rattle.std.specs.Prelude.{◌≡◌, ◌&&◌, ◌||◌};
ghost use Rattle.vq_capture_memory.specs.AccessKinds.{has_all_kinds, has_read, has_write, names_read, names_write};
ghost use Rattle.vq_capture_memory.specs.AccessKinds.{share_read};

use vq_capture::stage::AccessMask;

#[inline(always)]
fn either(a: bool, b: bool) -> bool
    ensures { result ≡ (a || b) }
{
    a || b
}

#[inline(always)]
fn both(a: bool, b: bool) -> bool
    ensures { result ≡ (a && b) }
{
    a && b
}

fn names_read(m: &AccessMask) -> bool
    ensures { result ≡ names_read m.now }
{
    let some = either(m.memory_read, m.index_read);
    let some = either(some, m.attribute_read);
    let some = either(some, m.uniform_read);
    let some = either(some, m.sampled_read);
    let some = either(some, m.storage_read);
    either(some, m.attachment_read)
}

fn has_all_kinds(m: &AccessMask) -> bool
    ensures { result ≡ has_all_kinds m.now }
{
    !either(names_read(m), either(m.memory_write, m.storage_write))
}

/// Whether some kind of read is in both.
fn share_read(a: &AccessMask, b: &AccessMask) -> bool
    ensures { result ≡ share_read a.now b.now }
{
    let some = both(a.memory_read, b.memory_read);
    let some = either(some, both(a.index_read, b.index_read));
    let some = either(some, both(a.attribute_read, b.attribute_read));
    let some = either(some, both(a.uniform_read, b.uniform_read));
    let some = either(some, both(a.sampled_read, b.sampled_read));
    let some = either(some, both(a.storage_read, b.storage_read));
    either(some, both(a.attachment_read, b.attachment_read))
}

/// Whether the kinds of a scope have a write of some kinds.
pub fn has_write(scope: &AccessMask, own: &AccessMask) -> bool
    ensures { result ≡ has_write scope.now own.now }
{
    let some = either(has_all_kinds(scope), scope.memory_write);
    let storage = both(
        scope.storage_write,
        either(own.storage_write, !own.memory_write),
    );
    either(some, storage)
}

/// Whether the kinds of a scope have a read of some kinds.
pub fn has_read(scope: &AccessMask, own: &AccessMask) -> bool
    ensures { result ≡ has_read scope.now own.now }
{
    let some = either(has_all_kinds(scope), scope.memory_read);
    let some = either(some, share_read(scope, own));
    either(some, both(names_read(scope), !names_read(own)))
}
