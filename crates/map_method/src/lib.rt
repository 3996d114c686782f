//! How a map is found: how the orders of its lines are searched for, what is to be proved of them, and how its drawing
//! is found and made better. Of all this a check of a map asks only for the claim, what is to be proved of the orders.
//! Beside it stand the settings of a map, and the two tables of settings that hold where a user sets none.
#![tactic(auto)]

mod claim;
mod defaults;
mod drawing_plan;
mod map_settings;
mod method;
mod search;
mod spread;

pub use claim::Claim;
pub use defaults::Defaults;
pub use drawing_plan::DrawingPlan;
pub use map_settings::MapSettings;
pub use method::Method;
pub use search::Search;
pub use spread::Spread;
