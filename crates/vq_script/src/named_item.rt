//! What a declared name stands for.
ghost use Rattle.std.specs.Prelude.{◌≡◌, Some};
ghost use Rattle.vq_script.specs.Names.{semaphore_item, number_in};
ghost use Rattle.vq_forms.specs.Table.{place_of};

use vq_forms::Token;
use vq_model::script::{Mode, SemaphoreKind};

/// A buffer, a timeline or binary semaphore, a fence or a queue with its mode, by its number.
/// Semaphores and fences are counted together.
#[derive(Clone, Copy)]
pub enum NamedItem {
    Buffer(u32),
    Timeline(u32),
    Binary(u32),
    Fence(u32),
    Queue(u32, Mode),
}

impl NamedItem {
    /// The number of the item, if it is of the kind that a place needs.
    pub fn number(self, place: Token) -> Option<u32>
        ensures { result ≡ number_in (place_of place) (Some self) }
    {
        match (place, self) {
            (Token::BufferToken, NamedItem::Buffer(number)) => Some(number),
            (Token::TimelineToken, NamedItem::Timeline(number)) => Some(number),
            (Token::BinaryToken, NamedItem::Binary(number)) => Some(number),
            (Token::FenceToken, NamedItem::Fence(number)) => Some(number),
            (Token::QueueToken, NamedItem::Queue(number, _)) => Some(number),
            (Token::ThreadedToken, NamedItem::Queue(number, Mode::Threaded)) => Some(number),
            _ => None,
        }
    }
}

/// The semaphore or fence of this number.
pub fn semaphore_item(kind: SemaphoreKind, number: u32) -> NamedItem
    ensures { result ≡ semaphore_item kind number }
{
    match kind {
        SemaphoreKind::Timeline(_) => NamedItem::Timeline(number),
        SemaphoreKind::Binary => NamedItem::Binary(number),
        SemaphoreKind::Fence => NamedItem::Fence(number),
    }
}
