//! The texts of c8_screen, c8_game, c8_machine and c8_digest that no case prints. What programs do, and which texts are
//! not games, stands in `cases/` and `cases/calls`.
mod texts;
