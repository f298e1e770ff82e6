// The C calls of board's versions.rt.
ghost use Rattle.std.specs.Prelude.{◌≡◌};
ghost use Rattle.board.specs.Board.{board_version};

#[unsafe(no_mangle)]
pub extern "C" fn board_version() -> u64
    ensures { result ≡ board_version }
{
    board::board_version()
}
