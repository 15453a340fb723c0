// Each call that is refused, and a run over a medium that keeps nothing.
mod awaiting;
mod deaf;
mod given;
mod media;
mod plans;
mod runs;
