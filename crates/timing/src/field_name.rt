use anyhow::anyhow;

// A field that recordings are over.
#[derive(Clone, Copy)]
pub enum FieldName {
    Binary,
    Mod101,
}

impl TryFrom<u32> for FieldName {
    type Error = anyhow::Error;

    // The field that has so many codes.
    fn try_from(size: u32) -> anyhow::Result<FieldName> {
        match size {
            2 => Ok(FieldName::Binary),
            101 => Ok(FieldName::Mod101),
            _ => Err(anyhow!("the ring is neither 2 nor 101")),
        }
    }
}
