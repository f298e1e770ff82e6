// Which header the library goes with.
ghost use Rattle.std.specs.Prelude.{◌≡◌};
ghost use Rattle.board.specs.Board.{board_version};

// It rises with every changed signature, length or struct of include/board.h, whose BOARD_VERSION it is.
const VERSION: u64 = 1;

#[unsafe(no_mangle)]
pub extern "C" fn board_version() -> u64
    ensures { result ≡ board_version }
{
    VERSION
}
