use sc_terms::{Charter, Config, Dar, ListenerCharter};
use sc_value::List;

/// What a container is set up with.
#[derive(Drop)]
pub struct Setup {
    pub config: Config,
    pub dar: Dar,
    /// The charters of each kind's servlet and listener, by the kind's place in the catalogue.
    pub kinds: List<(Charter, Option<ListenerCharter>)>,
}
