// One browser and one circuit over a line that loses nothing and keeps the order.
mod message;
mod printing;
mod server;
mod state;

pub use state::Line;
