// What a run goes by: the sheet that was read, and the limit.
use crate::limit::Limit;
use instance::Sheet;

#[derive(Drop)]
pub(crate) struct Run<'a> {
    pub sheet: Sheet<'a>,
    pub limit: Limit,
}
