//! What each code means to a mapper: a second table, by the ranks of the codes. `tools/tables` writes its rows into other
//! languages and into pages.
//!
//! "The game" is doom2.exe 1.9 and linuxdoom 1.10. The names in parentheses are its routines.

ghost use Rattle.std.specs.Prelude.{◌≡◌, ◌<◌, map};
ghost use Rattle.level_codes.specs.Explanations.{explained_of, explanation_at, explanation_table};

use crate::table::REPORT_COUNT;

/// What a code means to a mapper. Each part is one line or more, of at most 80 bytes of plain text, each with its end.
#[derive(Clone, Copy)]
pub struct Explanation {
    /// What the code is.
    pub what: &'static [u8],
    /// What the game does with it.
    pub game: &'static [u8],
    /// What a mapper does about it.
    pub cure: &'static [u8],
}

// The code's name is for those who read the table.
macro_rules! explained {
    ($code:ident, $what:literal, $game:literal, $cure:literal $(,)?) => {
        Explanation {
            what: $what,
            game: $game,
            cure: $cure,
        }
    };
}

// The explanations of all codes: faults, notes, warnings.
const EXPLANATIONS: [Explanation; REPORT_COUNT] = [
    explained! { F1,
        b"The directory ends before all ten lumps of the level, THINGS to BLOCKMAP, stand\n\
          behind its label. wadlens calls such a level incomplete.\n",
        b"The game takes these lumps by their places, and ends with an error where the\n\
          directory ends (W_CacheLumpNum). If another file was loaded behind this one, the\n\
          game takes lumps of that file.\n",
        b"Take a whole copy of the file, or save the level again in an editor, with nodes,\n\
          REJECT and BLOCKMAP.\n",
    },
    explained! { F2,
        b"A lump's place or size is negative, or the lump goes past the end of its file.\n\
          wadlens calls such a level outside.\n",
        b"The game ends with an error as it reads a lump that its file cuts short\n\
          (W_ReadLump). The game doesn't test for a negative place or size.\n",
        b"Take a whole copy of the file, or save the level again in an editor.\n",
    },
    explained! { F3,
        b"A linedef begins or ends at a vertex that isn't there.\n",
        b"The game doesn't test the number (P_LoadLineDefs): it reads memory that isn't\n\
          its own as the vertex. The linedef runs to a place by chance, or the game\n\
          crashes.\n",
        b"Draw the linedef again in an editor, then build the nodes. A level with more\n\
          than 32768 vertexes is for ports: check it with --wide.\n",
    },
    explained! { F4,
        b"A linedef names a sidedef that isn't there.\n",
        b"The game doesn't test the number (P_LoadLineDefs): it reads memory that isn't\n\
          its own as the side's sector, and then writes to that sector (P_GroupLines). A\n\
          crash is likely. Chocolate Doom ends at a seg on such a side.\n",
        b"Give the linedef a new side in an editor, then build the nodes. A level with\n\
          more than 32768 sidedefs is for ports: check it with --wide.\n",
    },
    explained! { F5,
        b"A sidedef names a sector that isn't there.\n",
        b"The game doesn't test the number (P_LoadSideDefs): memory that isn't its own\n\
          stands for the sector. The game writes there as it loads the level\n\
          (P_GroupLines), and a crash is likely. A sidedef that no linedef has does no\n\
          harm.\n",
        b"Give the side a sector in an editor, then build the nodes.\n",
    },
    explained! { F6,
        b"A seg begins or ends at a vertex that isn't there.\n",
        b"The game doesn't test the number (P_LoadSegs). To draw the seg, the game reads\n\
          memory that isn't its own as the vertex (R_AddLine): the wall is missing or\n\
          stands in a wrong place, or the game crashes.\n",
        b"Build the nodes again. A level with more than 32768 vertexes is for ports: check\n\
          it with --wide.\n",
    },
    explained! { F7,
        b"A seg names a linedef that isn't there.\n",
        b"The game doesn't test the number (P_LoadSegs): it reads memory that isn't its\n\
          own as the linedef, and follows a sidedef's number found there. A crash is\n\
          likely as the level is loaded.\n",
        b"Build the nodes again: they may be older than the linedefs. A level with more\n\
          than 32768 linedefs is for ports: check it with --wide.\n",
    },
    explained! { F8,
        b"A seg lies on side 0 of its linedef, the front, or on side 1, the back. This seg\n\
          has another number.\n",
        b"The game doesn't test the number (P_LoadSegs). It takes what stands before or\n\
          behind the linedef's two sidedef numbers for another one. The seg gets a wrong\n\
          sidedef and sector, or the game reads memory that isn't its own, and may crash.\n",
        b"Build the nodes again.\n",
    },
    explained! { F9,
        b"A seg lies on a side of its linedef, and the linedef has no sidedef there.\n",
        b"The game reads memory that isn't its own, before the first sidedef, as the side\n\
          and its sector (P_LoadSegs). The wall is drawn by chance, or the game crashes.\n\
          Chocolate Doom ends with an error as it loads the level.\n",
        b"Give the linedef this side, or build the nodes again: they may be older than the\n\
          linedefs.\n",
    },
    explained! { F10,
        b"An ssector has a run of segs, and not all of them are there.\n",
        b"The game doesn't test this. Without the first seg it reads the ssector's sector\n\
          from memory that isn't its own (P_GroupLines). Without others it reads walls\n\
          from there (R_Subsector, P_CrossSubsector). A crash is likely.\n",
        b"Build the nodes again. A level with more than 32768 segs is for ports: check it\n\
          with --wide.\n",
    },
    explained! { F11,
        b"A node has two children, each a node or an ssector. One of them isn't there.\n",
        b"At an ssector that isn't there the game ends with an error, as it draws\n\
          (R_Subsector) or traces a sight (P_CrossSubsector). To place a thing there, or\n\
          to follow a node that isn't there, the game reads memory that isn't its own\n\
          (R_PointInSubsector).\n",
        b"Build the nodes again.\n",
    },
    explained! { F12,
        b"The line by which a node divides the level begins outside -16384 to 16383.\n",
        b"The game's numbers have 16 bits for whole units. If a place is 32768 units or\n\
          more away from there in x or y, the difference wraps. At a slanted line the game\n\
          may then take the wrong side (R_PointOnSide): it draws walls in a wrong order,\n\
          and puts things into a wrong sector.\n",
        b"Move the level nearer to (0, 0), or make it smaller, then build the nodes.\n",
    },
    explained! { F13,
        b"A node is a child more than once, or the root, the last node, is a child. So the\n\
          nodes are no tree.\n",
        b"If children lead back to the node, the game can hang as it looks for a place's\n\
          sector (R_PointInSubsector), and can run out of stack as it draws\n\
          (R_RenderBSPNode). Otherwise it draws twice all that the node leads to.\n",
        b"Build the nodes again.\n",
    },
    explained! { F14,
        b"No children lead from the root, the last node, to this node.\n",
        b"The game begins at the root (R_RenderBSPNode, R_PointInSubsector), so it never\n\
          uses this node. An ssector to which no other node leads is never used either:\n\
          see F16.\n",
        b"Build the nodes again. In NODES the root has to come last.\n",
    },
    explained! { F15,
        b"An ssector is a child more than once, so it stands for two parts of the level.\n",
        b"A thing in either part stands in this ssector's sector (R_PointInSubsector),\n\
          which is likely wrong in one of them. The game draws the ssector with both parts\n\
          (R_RenderBSPNode).\n",
        b"Build the nodes again.\n",
    },
    explained! { F16,
        b"No children lead from the root to this ssector. Without nodes only ssector 0 is\n\
          reached.\n",
        b"The game never draws this ssector (R_RenderBSPNode), and may let a sight through\n\
          its walls (P_CrossBSPNode). The walls still stop what moves, since moves go by\n\
          BLOCKMAP (P_BlockLinesIterator).\n",
        b"Build the nodes again.\n",
    },
    explained! { F17,
        b"SSECTORS is empty. Most likely the level was saved without nodes.\n",
        b"The game looks up the ssector of each thing that it places, and reads memory\n\
          that isn't its own (R_PointInSubsector). A crash is likely. If the game comes to\n\
          draw the level, it ends with an error (R_Subsector).\n",
        b"Build the nodes.\n",
    },
    explained! { F18,
        b"A child has 15 bits for a number, so nodes can name 32768 ssectors. A tree of\n\
          more than 32767 nodes has more.\n",
        b"From 32769 to 65536 nodes the game takes the root's number for that of an\n\
          ssector (R_PointInSubsector, R_RenderBSPNode). It draws this ssector alone, and\n\
          all things stand in its sector.\n",
        b"Make the level smaller, or build extended nodes, which are for ports.\n",
    },
    explained! { N1,
        b"A lump behind the label hasn't the usual name of its place. wadlens calls such a\n\
          level incomplete; without THINGS it sees no level.\n",
        b"The game takes a level's lumps by their places, and doesn't look at their names\n\
          (P_SetupLevel). A wrong lump is read as if it were the right one.\n",
        b"Put the ten lumps behind the label in order, under their usual names. Editors\n\
          and ports look at these.\n",
    },
    explained! { N2,
        b"A lump has bytes behind its last whole record.\n",
        b"The game divides the lump's length by that of a record, and leaves the rest out\n\
          (P_LoadThings and the like).\n",
        b"Look whether the lump was cut, or has the longer records of another game. An\n\
          editor that saves the level again writes whole records.\n",
    },
    explained! { N3,
        b"A linedef is flagged as two-sided, and has no back sidedef.\n",
        b"Nothing moves through it (PIT_CheckLine). As the sector behind it the game takes\n\
          memory that isn't its own, by way of a sidedef before the first one\n\
          (P_LoadSegs). An opening may show, a sight may pass, or the game crashes.\n\
          Chocolate Doom has a stand-in for this sector.\n",
        b"Clear the flag, or give the linedef its back sidedef.\n",
    },
    explained! { N4,
        b"A linedef has no front sidedef.\n",
        b"The game counts each linedef in its front sector (P_GroupLines), here through a\n\
          sector that isn't there, at address 0, and ends as it loads the level. A sound\n\
          level with N4 isn't one that the game loads.\n",
        b"Turn the linedef round if it has a back sidedef, otherwise delete it. Then build\n\
          the nodes.\n",
    },
    explained! { N5,
        b"A linedef begins and ends at the same place.\n",
        b"The game draws nothing for it (R_AddLine). If BLOCKMAP lists it, a one-sided or\n\
          blocking one still stops what moves over the place, like a thin post\n\
          (PIT_CheckLine). Nothing gets from one side of it to the other, so nothing sets\n\
          its special off.\n",
        b"Delete the linedef, or move one of its ends, then build the nodes.\n",
    },
    explained! { N6,
        b"An ssector has a part of the level, but no segs.\n",
        b"The game draws nothing for it (R_Subsector). Things there stand in the sector of\n\
          the seg that the ssector names as its first (P_GroupLines). Most likely this seg\n\
          is another ssector's.\n",
        b"Build the nodes again, if need be with another builder.\n",
    },
    explained! { N7,
        b"The line by which a node divides the level has no direction.\n",
        b"The game takes every place to be in front (R_PointOnSide). Things that belong to\n\
          the back stand in a sector of the front. Walls of the back are drawn after the\n\
          front or not at all (R_RenderBSPNode), and hardly stop a sight (P_CrossBSPNode).\n",
        b"Delete the linedefs of no length (N5), then build the nodes.\n",
    },
    explained! { N8,
        b"REJECT has a bit for each pair of sectors. This one is shorter or longer.\n",
        b"The game reads past a short one, into memory that isn't its own (P_CheckSight):\n\
          by chance some monsters never see a player, and some blasts harm nobody. Bytes\n\
          too many do no harm.\n",
        b"Build REJECT again. Zeros of the right size will do: the game then traces each\n\
          sight.\n",
    },
    explained! { N9,
        b"BLOCKMAP is shorter than its head of 8 bytes, or hasn't a word for each block.\n",
        b"The game doesn't test this (P_LoadBlockMap, P_BlockLinesIterator): it reads\n\
          memory that isn't its own as the number of blocks or as lists. By chance walls\n\
          stop nothing, or the game crashes.\n",
        b"Build BLOCKMAP again. Some ports build one in place of an empty one; the\n\
          released game doesn't.\n",
    },
    explained! { N10,
        b"The list of a block's linedefs begins outside BLOCKMAP, or has no end in it.\n",
        b"The game doesn't test this (P_BlockLinesIterator): as something moves or shoots\n\
          through the block, it reads memory that isn't its own as numbers of linedefs. By\n\
          chance walls stop nothing, or the game crashes.\n",
        b"Build BLOCKMAP again. A level whose lists begin behind word 32767 is for ports:\n\
          make it smaller, or check it with --wide.\n",
    },
    explained! { N11,
        b"No thing is of type 1, where player 1 starts.\n",
        b"Except in a deathmatch, the player has no body. As the game moves the player, it\n\
          reads and writes memory that isn't its own (P_PlayerThink). A crash is likely.\n\
          Chocolate Doom ends with an error as it loads the level.\n",
        b"Place a thing of type 1.\n",
    },
    explained! { N12,
        b"A vertex is outside -16384 to 16383.\n",
        b"The game's numbers have 16 bits for whole units. No difference wraps while\n\
          places are less than 32768 units apart in x and in y. From there on walls are\n\
          drawn in wrong directions (R_PointToAngle), and a linedef of such a length runs\n\
          the wrong way (P_LoadLineDefs).\n",
        b"Move the level nearer to (0, 0), or make it smaller, then build the nodes.\n",
    },
    explained! { W1,
        b"At the vertex that is reported, the sector's outline has a gap or an extra line:\n\
          more of its sides begin there than end, or fewer.\n",
        b"The game ends a floor and a ceiling only at a seg (R_RenderSegLoop). In a gap\n\
          those of another sector run in, or nothing is drawn (a hall of mirrors).\n",
        b"Draw the missing line, or give the wrong side its sector, then build the nodes.\n\
          Ignore W1 if a trick needs the sector open.\n",
    },
    explained! { W2,
        b"By its sectors' heights a part of a wall can be seen, but its texture is \"-\".\n",
        b"The game draws nothing for it (R_RenderSegLoop). In place of the middle of a\n\
          one-sided wall old pictures show (a hall of mirrors). In place of an upper or a\n\
          lower the ceiling or the floor behind it runs on, or old pictures show.\n",
        b"Choose a texture. Ignore W2 where no player sees the wall, or if a trick needs\n\
          it bare.\n",
    },
    explained! { W3,
        b"A thing stands in the void, outside the walls of the level.\n",
        b"The game has a sector for every place, so the thing stands in one\n\
          (R_PointInSubsector). Hardly anybody gets there. A monster or an item counts for\n\
          the totals all the same (P_SpawnMapThing). A player who starts there is shut\n\
          out.\n",
        b"Move the thing inside, or delete it.\n",
    },
    explained! { W4,
        b"A linedef's special goes by its tag to a sector, and no sector has this tag.\n",
        b"The special finds no sector, and does nothing (P_FindSectorFromLineTag). A\n\
          switch doesn't even turn (P_UseSpecialLine), and a teleporter takes nobody\n\
          anywhere (EV_Teleport). Exits, scrolling walls and doors opened by hand don't go\n\
          by the tag: they aren't told.\n",
        b"Give the sector this tag, or the linedef the tag of the sector.\n",
    },
    explained! { W5,
        b"An ssector is part of one sector, but its segs face more than one.\n",
        b"The game takes the sector of the first seg for the whole ssector (P_GroupLines).\n\
          Things there stand on that sector's floor. Floor, ceiling and walls are drawn by\n\
          that sector's heights and light (R_Subsector).\n",
        b"Look for sectors that aren't closed (W1), and for linedefs that lie on others\n\
          (W6) or cross others without a vertex. Then build the nodes.\n",
    },
    explained! { W6,
        b"A linedef has the same two ends as an earlier one.\n",
        b"The game keeps both. A thing is stopped if either stops it (PIT_CheckLine). If\n\
          both let a thing through, the specials of both can act (P_TryMove). The nodes\n\
          decide which one is drawn.\n",
        b"Delete one of them, look at the sectors on both sides, then build the nodes.\n",
    },
    explained! { W7,
        b"No thing is of type 2, 3 or 4, where players 2 to 4 start. The first player\n\
          without a start is reported.\n",
        b"A single game doesn't need the start. In a cooperative game the player has no\n\
          body (see N11), and a crash is likely.\n",
        b"Place the starts, or ignore W7 in a level for one player.\n",
    },
    explained! { W8,
        b"Fewer than four things are of type 11, where players start in a deathmatch.\n",
        b"The game ends with an error as it loads the level for a deathmatch\n\
          (G_DeathMatchSpawnPlayer). Other games don't need these things.\n",
        b"Place at least four of them; the game uses ten at most. Ignore W8 in a level\n\
          that isn't for deathmatch.\n",
    },
    explained! { W9,
        b"A sidedef has a texture that neither TEXTURE1 nor TEXTURE2 lists.\n",
        b"The game ends with an error as it loads the level (R_TextureNumForName), even if\n\
          nobody can see this part of the wall.\n",
        b"With --base name the files that the level stands on, so that their textures\n\
          count. Otherwise choose another texture, or \"-\" for none.\n",
    },
    explained! { W10,
        b"A sector has a flat for its floor or its ceiling, and no lump has that name.\n",
        b"The game ends with an error as it loads the level (R_FlatNumForName).\n",
        b"With --base name the files that the level stands on, so that their flats count.\n\
          Otherwise choose another flat.\n",
    },
    explained! { W11,
        b"A thing's type is none of the game's, and the thing appears in some skill.\n",
        b"In such a skill the game ends with an error as it loads the level\n\
          (P_SpawnMapThing).\n",
        b"Change the type, or delete the thing. Ignore W11 if the level is for a port that\n\
          knows the type.\n",
    },
    explained! { W12,
        b"This number is kept for a later version, and no level is looked at for it.\n",
        b"Nothing is told under it.\n",
        b"Nothing has to be done.\n",
    },
    explained! { W13,
        b"This number is kept for a later version, and no level is looked at for it.\n",
        b"Nothing is told under it.\n",
        b"Nothing has to be done.\n",
    },
    explained! { W14,
        b"A linedef's special is none of the game's.\n",
        b"Nothing happens when something crosses, uses or shoots at the linedef\n\
          (P_CrossSpecialLine, P_UseSpecialLine, P_ShootSpecialLine). Other engines have\n\
          specials of their own.\n",
        b"Choose one of the game's specials, or ignore W14 if the level is for a port that\n\
          knows this one.\n",
    },
    explained! { W15,
        b"A linedef's special goes by its tag, and the tag is 0.\n",
        b"The game compares 0 like any other tag (P_FindSectorFromLineTag): the special\n\
          moves every sector without a tag, or changes its light.\n",
        b"Give the linedef a tag, and the sectors that are meant the same one.\n",
    },
    explained! { W16,
        b"A linedef's special acts when something crosses it, and nothing can; or it\n\
          teleports, and no sector with its tag has a destination.\n",
        b"A linedef isn't crossed by what it stops (PIT_CheckLine, P_TryMove). A\n\
          teleporter looks for a thing of type 14 in the sectors of its tag (EV_Teleport),\n\
          and does nothing without one.\n",
        b"Give the linedef a back sidedef, or clear the flag that blocks. Place a thing of\n\
          type 14 in the sector.\n",
    },
    explained! { W17,
        b"The use of a linedef's special ends the game, or spoils a sector.\n",
        b"A door in a wall ends it (EV_VerticalDoor), and so does a 31st platform\n\
          (P_AddActivePlat). A 31st ceiling can't be stopped (P_AddActiveCeiling). A list\n\
          has room for 20 higher neighbours (P_FindNextHighestFloor). A donut (EV_DoDonut)\n\
          and a floor that changes (EV_DoFloor) may read what isn't there.\n",
        b"Put the special on a linedef with two sides, give fewer sectors the tag, or draw\n\
          the sector's linedefs in another order.\n",
    },
    explained! { W18,
        b"A sector's special is none of the game's.\n",
        b"Once a player stands on the sector's floor, the game ends with an error\n\
          (P_PlayerInSpecialSector).\n",
        b"Choose another special. Ignore W18 where no player can stand.\n",
    },
    explained! { W19,
        b"Nothing ends the level, or a linedef wants a key that isn't there in some skill.\n",
        b"Without an exit the level goes on for ever. Locked doors stay shut\n\
          (EV_VerticalDoor, EV_DoLockedDoor); keys don't last from level to level. Things\n\
          for several players aren't there for one.\n",
        b"Place an exit, or the key in each skill. Ignore W19 in a level for deathmatch,\n\
          where players have all keys.\n",
    },
    explained! { W20,
        b"This number is kept for a later version, and no level is looked at for it.\n",
        b"Nothing is told under it.\n",
        b"Nothing has to be done.\n",
    },
    explained! { W21,
        b"A thing ends the reading of things, appears in no skill, or ends the game as it\n\
          shoots.\n",
        b"In a level of the first game reading ends at the first thing of the second\n\
          (P_LoadThings). Without a target the shot of a shooter of cubes divides by 0\n\
          (A_BrainSpit), and the game has room for 32 targets.\n",
        b"Delete the thing, or give it a skill. Place a thing of type 87 in each skill of\n\
          the shooter.\n",
    },
    explained! { W22,
        b"The level has more of something than the game has room for, or a texture of its\n\
          files lacks a patch.\n",
        b"The game writes past the end of its list, over memory of its own\n\
          (P_SpawnSpecials), ends with an error (P_AddActivePlat, G_DoSaveGame), doesn't\n\
          use what is too much (P_SpawnMapThing), or doesn't start (R_InitTextures).\n",
        b"Take away what is too much, or put it into another level. Give the texture\n\
          patches that the files have.\n",
    },
    explained! { W23,
        b"This number is kept for a later version, and no level is looked at for it.\n",
        b"Nothing is told under it.\n",
        b"Nothing has to be done.\n",
    },
    explained! { W24,
        b"This number is kept for a later version, and no level is looked at for it.\n",
        b"Nothing is told under it.\n",
        b"Nothing has to be done.\n",
    },
    explained! { W25,
        b"A sector's flat isn't between F_START and F_END, the last of each.\n",
        b"The game gives numbers to the flats between these two (R_InitFlats). The number\n\
          of another one is outside its table. The game writes there as it loads the\n\
          level (R_PrecacheLevel). It reads there as it draws the flat (R_DrawPlanes), and\n\
          mostly ends.\n",
        b"Put the flats that are needed between one F_START and one F_END.\n",
    },
];

// The explanations.
fn explanations() -> &'static [Explanation]
    ensures { map explained_of result.now ≡ explanation_table }
{
    &EXPLANATIONS
}

/// The explanation of a rank.
pub fn explanation_at(rank: usize) -> &'static Explanation
    requires { rank < REPORT_COUNT }
    ensures { explained_of result.now ≡ explanation_at rank }
{
    let explanations = explanations();
    &explanations[rank]
}
