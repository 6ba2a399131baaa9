// The calls that there are cases of, by the names that the cases begin with.

#[derive(Clone, Copy)]
pub enum Call {
    Read,
    SheetRead,
    Session,
    Table,
    SheetWrite,
    List,
    Box,
    Description,
}

// A name that no call has.
#[derive(Clone, Copy)]
pub struct NoCall;

impl<'a> TryFrom<&'a [u8]> for Call {
    type Error = NoCall;

    fn try_from(name: &'a [u8]) -> Result<Call, NoCall> {
        match name {
            b"read" => Ok(Call::Read),
            b"sheet_read" => Ok(Call::SheetRead),
            b"session" => Ok(Call::Session),
            b"table" => Ok(Call::Table),
            b"sheet_write" => Ok(Call::SheetWrite),
            b"list" => Ok(Call::List),
            b"box" => Ok(Call::Box),
            b"description" => Ok(Call::Description),
            _ => Err(NoCall),
        }
    }
}
