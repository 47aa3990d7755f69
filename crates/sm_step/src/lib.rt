//! One move of one thread, as the rules of the source meaning say.
#![tactic(auto)]

mod editing;
mod escaping;
mod lane;
mod leaving;
mod levels;
mod parameters;
mod site;

pub use editing::make_edit;
pub use escaping::{drop_part, is_replaced, replace, replace_and_end, uncaught};
pub use lane::Lane;
pub use leaving::{awaits_object, dropped, noted};
pub use levels::{
    child_at, come_to_rest, go_up, go_up_without, node_at, put_level, put_operand, put_two,
    set_local, turn_to,
};
pub use parameters::parameter;
pub use site::{Climb, Rest, Site};
pub use sl_base::NoMemory;
