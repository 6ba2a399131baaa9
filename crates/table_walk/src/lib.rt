// Walking over a table: its rows and its bodies side by side, each field judged, and the file's bytes written where they fit. A walk into no memory
// only checks the table. It is over any memory for rows (`rows::cells`) and for words (`words`): a table's, or a sheet's bytes.
#![tactic(auto)]

pub mod file;
pub mod objects;
pub mod words;
