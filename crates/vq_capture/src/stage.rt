//! Pipeline stages and kinds of accesses, as captures tell them apart, and masks of them.
//!
//! Source: Vulkan 1.3, "Pipeline Stages" and "Access Types".

/// A pipeline stage. `Vertex` is all stages from the vertex shader to geometry, task and mesh shaders, `Early` and
/// `Late` are the two of depth tests, `Copy` is all transfer stages, and `Other` is all that has no word of its own.
#[derive(Clone, Copy, Debug, PartialEq, Eq)]
pub enum Stage {
    /// Before all others. No word names it: `none` as a first scope has it alone.
    Begin,
    Indirect,
    Input,
    Vertex,
    Early,
    Fragment,
    Late,
    Color,
    Compute,
    Copy,
    Host,
    Other,
    /// After all others. No word names it: `none` as a second scope has it alone.
    End,
}

/// A set of stages.
#[derive(Clone, Copy)]
pub struct StageMask {
    pub begin: bool,
    pub indirect: bool,
    pub input: bool,
    pub vertex: bool,
    pub early: bool,
    pub fragment: bool,
    pub late: bool,
    pub color: bool,
    pub compute: bool,
    pub copy: bool,
    pub host: bool,
    pub other: bool,
    pub end: bool,
}

/// A kind of accesses. A stage's other reads and writes have no word of their own: they are `MemoryRead` and
/// `MemoryWrite` at that stage.
#[derive(Clone, Copy, Debug, PartialEq, Eq)]
pub enum AccessType {
    MemoryRead,
    MemoryWrite,
    IndexRead,
    AttributeRead,
    UniformRead,
    SampledRead,
    StorageRead,
    StorageWrite,
    AttachmentRead,
}

/// A set of kinds of accesses.
#[derive(Clone, Copy)]
pub struct AccessMask {
    pub memory_read: bool,
    pub memory_write: bool,
    pub index_read: bool,
    pub attribute_read: bool,
    pub uniform_read: bool,
    pub sampled_read: bool,
    pub storage_read: bool,
    pub storage_write: bool,
    pub attachment_read: bool,
}

/// The scope of a dependency: these accesses, at these stages. Of the accesses nothing is asked yet.
#[derive(Clone, Copy)]
pub struct Scope {
    pub stages: StageMask,
    pub accesses: AccessMask,
}
