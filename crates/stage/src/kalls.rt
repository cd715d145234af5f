// The kalls, by their names and arguments.
use crate::number::number;
use crate::wrong::Wrong;
use model::kinds::{Block, Fetch, Kall, Move};
use std::alloc::Global;

// Indexes joined by dots; a dash is the path with none.
fn read_path(heap: Global, word: &str) -> Result<Vec<u32>, Wrong> {
    if word == "-" {
        return Ok(Vec::new(heap));
    }
    word.split('.').map(number).try_collect(heap)
}

fn lenth(words: &[&str]) -> Result<Kall, Wrong> {
    match words {
        [] => Ok(Kall::Lenth),
        _ => Err(Wrong::Form),
    }
}

fn path_alone(heap: Global, words: &[&str]) -> Result<Vec<u32>, Wrong> {
    match words {
        [path] => read_path(heap, path),
        _ => Err(Wrong::Form),
    }
}

fn block(heap: Global, words: &[&str]) -> Result<Block, Wrong> {
    match words {
        [path, disp, knt] => Ok(Block {
            path: read_path(heap, path)?,
            disp: number(disp)?,
            knt: number(knt)?,
        }),
        _ => Err(Wrong::Form),
    }
}

fn data(heap: Global, words: &[&str]) -> Result<Kall, Wrong> {
    let (path, knt, mask) = match words {
        [path, knt] => (path, knt, None),
        [path, knt, "mask", mask] => (path, knt, Some(number(mask)?)),
        _ => return Err(Wrong::Form),
    };
    Ok(Kall::Data {
        path: read_path(heap, path)?,
        knt: number(knt)?,
        mask,
    })
}

fn addata(heap: Global, words: &[&str]) -> Result<Kall, Wrong> {
    match words {
        [path, knt] => Ok(Kall::Addata {
            path: read_path(heap, path)?,
            knt: number(knt)?,
        }),
        _ => Err(Wrong::Form),
    }
}

fn fetch(heap: Global, words: &[&str]) -> Result<Fetch, Wrong> {
    match words {
        [new, path] => Ok(Fetch {
            new: number(new)?,
            path: read_path(heap, path)?,
        }),
        _ => Err(Wrong::Form),
    }
}

fn moved(heap: Global, words: &[&str]) -> Result<Move, Wrong> {
    let (path, cur, mask) = match words {
        [path, cur] => (path, cur, None),
        [path, cur, "mask", mask] => (path, cur, Some(number(mask)?)),
        _ => return Err(Wrong::Form),
    };
    Ok(Move {
        path: read_path(heap, path)?,
        cur: number(cur)?,
        mask,
    })
}

// The kall of this name, where the words are its arguments.
pub(crate) fn read_kall(heap: Global, name: &str, words: &[&str]) -> Result<Kall, Wrong> {
    match name {
        "LENTH" => lenth(words),
        "CLENTH" => path_alone(heap, words).map(Kall::Clenth),
        "DLENTH" => path_alone(heap, words).map(Kall::Dlenth),
        "GETDATA" => block(heap, words).map(Kall::Getdata),
        "LOAD" => fetch(heap, words).map(Kall::Load),
        "PASS" => moved(heap, words).map(Kall::Pass),
        "TAKE" => fetch(heap, words).map(Kall::Take),
        "STORE" => moved(heap, words).map(Kall::Store),
        "APPEND" => moved(heap, words).map(Kall::Append),
        "PASSAPPEND" => moved(heap, words).map(Kall::Passappend),
        "DELETE" => path_alone(heap, words).map(Kall::Delete),
        "INTERCHANGE" => moved(heap, words).map(Kall::Interchange),
        "DATA" => data(heap, words),
        "UNIV" => path_alone(heap, words).map(Kall::Univ),
        "PUTDATA" => block(heap, words).map(Kall::Putdata),
        "ADDATA" => addata(heap, words),
        "ERASE" => path_alone(heap, words).map(Kall::Erase),
        _ => Err(Wrong::Form),
    }
}
