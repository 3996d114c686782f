//! What happens in a round of the search by dual prices, but for the least orders of segments: what orders cost, how lines
//! stand on the average, and how prices and their directions go on.
#![tactic(auto)]

mod averages;
mod directions;
mod line_order;
mod order_costs;
mod prices;

pub use averages::{ALWAYS, average_in, no_averages};
pub use directions::{THOUSAND, direct, most_price, square_sum, subgradient};
pub use line_order::{LineOrder, copy_orders, orders_of, set_order};
pub use order_costs::{cost_of, term_cost};
pub use prices::{bar_of, gap_of, step_prices};
