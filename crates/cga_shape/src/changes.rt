use crate::drawn::Drawn;
use cga_fraction::List;

/// What an edit took from the drawn instances of a city, and what it added. No order is meant.
#[derive(Drop)]
pub struct Changes {
    pub gone: List<Drawn>,
    pub come: List<Drawn>,
}
