//! Boxes as they are handed in and given back.

ghost use Rattle.sb_registry.specs.Boxes.{Meanings, meanings};

use sb_drive::{Attachment, StorageMethod};

/// What holds boxes: what they mean is all that the contracts of their calls say of them.
pub trait Meant {
    ghost meant: { Self → Meanings };
}

/// Live boxes, and spare ones, which no command reaches before they are registered.
#[derive(Drop)]
pub struct Extensions {
    pub methods: Vec<Box<dyn StorageMethod>>,
    pub attachments: Vec<Box<dyn Attachment>>,
    pub spare_methods: Vec<Box<dyn StorageMethod>>,
    pub spare_attachments: Vec<Box<dyn Attachment>>,
}

impl Meant for Extensions {
    ghost meant = { meanings (λ b. (StorageMethod-box b).method b.value) (λ b. (Attachment-box b).attachment b.value) };
}
