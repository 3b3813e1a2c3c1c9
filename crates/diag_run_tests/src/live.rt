mod failing;
mod given;
mod sessions;
