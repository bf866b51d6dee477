// Views of values.

mod build;
mod checks;
mod view;
