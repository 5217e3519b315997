//! The types that every layer speaks of: values, objects and worlds, commands and their replies, and walks over objects.
//!
//! A program sees a graph, which is the values of its registers and the objects that they lead to (specs/Graph). What each
//! command does to it is specs/Effect, and `GraphStore` does that on an ordered map: each machine is compared with it. Contracts
//! see each small list type as its list. Begin with `object`, then `command`.
#![tactic(auto)]

mod command;
mod graph_store;
mod graph_walk;
mod items;
mod laws;
mod lists;
mod name;
mod object;
mod object_map;
mod objects;
mod reply;
mod request;
mod short;
mod store;
mod walk;
mod world;
mod world_walk;

pub use command::{Command, Condemn};
pub use graph_store::GraphStore;
pub use graph_walk::GraphWalk;
pub use items::Items;
pub use laws::effects_keep_graphs;
pub use lists::{Areas, Fields, Sequence, Text};
pub use name::Name;
pub use object::{Body, Object, Value};
pub use objects::{BodyRef, ObjectRef, Objects};
pub use reply::Reply;
pub use request::Request;
pub use short::CommandHead;
pub use store_word::{NoMemory, SwapFault};
pub use walk::{Form, Seen, SeenCons, Walk};
pub use world::{AreaKind, AreaRule, World};
pub use world_walk::WorldWalk;
